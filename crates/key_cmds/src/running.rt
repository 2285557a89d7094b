//! Runs a command on the keys.

ghost use Rattle.std.specs.Prelude.{◌≡◌, ◌++◌, IfOk, OnOk, OnErr};
ghost use Rattle.core_types.specs.CommandRow.{MeetArity};
ghost use Rattle.key_cmds.specs.Commands.{command_row, key_row};
ghost use Rattle.key_cmds.specs.Rows.{does, on_keys};
ghost use Rattle.key_cmds.specs.Run.{told};

use crate::deadlines::{expire, expire_when, persist, tell_milliseconds, tell_seconds};
use crate::deleting::delete;
use crate::on_hash::on_hash_key;
use crate::on_list::on_list_key;
use crate::on_string::on_string_key;
use crate::setting::set_each;
use crate::several_keys::{count, exists, get_each, rename, tell_type};
use crate::{Command, KeyCmd, ModuleValue, Ran};
use core_types::{Args, NoMemory};
use key_store::KeyStore;
use std::alloc::Global;
use std::hash::RandomState;

/// Runs a command on the keys at a moment in milliseconds. New hashes hash their names with
/// `hashing`. The values of modules that leave the keys go to the end of `left`, and are the
/// caller's to be freed. An `Err` changes nothing.
pub fn run<N: ModuleValue>(
    alloc: Global,
    hashing: RandomState,
    keys: &mut KeyStore<N>,
    moment: u64,
    cmd: Command,
    words: &Args,
    left: &mut Vec<N>,
) -> Result<Ran, NoMemory>
    requires arity { MeetArity (command_row cmd) words.now }
    ensures keys { OnOk result (keys.new ≡ (does N.type_name moment cmd keys.old words.now).keys) }
    ensures told { IfOk result
        (λ ran. ran ≡ told (does N.type_name moment cmd keys.old words.now)) }
    ensures left { OnOk result (left.new.items
        ≡ left.old.items ++ (does N.type_name moment cmd keys.old words.now).left) }
    ensures err { OnErr result ((keys.new ≡ keys.old) × (left.new.items ≡ left.old.items)) }
{
    match cmd {
        Command::Keys(cmd) => on_keys(alloc, keys, moment, cmd, words, left),
        Command::Str(cmd) => on_string_key(alloc, cmd, keys, words, left),
        Command::List(cmd) => on_list_key(alloc, cmd, keys, words, left),
        Command::Hash(cmd) => on_hash_key(alloc, hashing, cmd, keys, words, left),
    }
}

// A command on keys of any kind.
fn on_keys<N: ModuleValue>(
    alloc: Global,
    keys: &mut KeyStore<N>,
    moment: u64,
    cmd: KeyCmd,
    words: &Args,
    left: &mut Vec<N>,
) -> Result<Ran, NoMemory>
    requires { MeetArity (key_row cmd) words.now }
    ensures keys { OnOk result
        (keys.new ≡ (on_keys N.type_name moment cmd keys.old words.now).keys) }
    ensures told { IfOk result
        (λ ran. ran ≡ told (on_keys N.type_name moment cmd keys.old words.now)) }
    ensures left { OnOk result (left.new.items
        ≡ left.old.items ++ (on_keys N.type_name moment cmd keys.old words.now).left) }
    ensures err { OnErr result ((keys.new ≡ keys.old) × (left.new.items ≡ left.old.items)) }
{
    match cmd {
        KeyCmd::Del => delete(alloc, keys, words, left),
        KeyCmd::Exists => Ok(exists(alloc, keys, words)),
        KeyCmd::Type => tell_type(alloc, keys, words),
        KeyCmd::Rename => rename(alloc, keys, words, left),
        KeyCmd::DbSize => Ok(count(alloc, keys)),
        KeyCmd::MGet => get_each(alloc, keys, words),
        KeyCmd::MSet => set_each(alloc, keys, words, left),
        KeyCmd::Expire => expire(alloc, keys, moment, words, left),
        KeyCmd::PExpireAt => expire_when(alloc, keys, moment, words, left),
        KeyCmd::Ttl => Ok(tell_seconds(alloc, keys, moment, words)),
        KeyCmd::PTtl => Ok(tell_milliseconds(alloc, keys, moment, words)),
        KeyCmd::Persist => persist(alloc, keys, words),
    }
}
