//! The commands on one string.

ghost use Rattle.std.specs.Prelude.{◌≡◌, ◌++◌, Some, IfOk, OnOk, OnErr};
ghost use Rattle.core_types.specs.CommandRow.{MeetArity};
ghost use Rattle.string_cmds.specs.Commands as string_commands;
ghost use Rattle.key_cmds.specs.OneKey.{on_string, string_done};
ghost use Rattle.key_cmds.specs.Run.{told};
ghost use Rattle.key_cmds.specs.declared.plain.Plain.TheVariants as plain;
ghost use Rattle.key_cmds.specs.inner.Plain.{done_of};
ghost use Rattle.key_cmds.specs.inner.Settling.{DoesToValue, HasRoom};

use crate::Ran;
use crate::plain::{Plain, of_string};
use crate::settling::{make_room, settle};
use core_types::{Args, NoMemory, Outcome, Value};
use key_store::KeyStore;
use std::alloc::Global;
use string_cmds::StringCmd;

/// A command on a string. The key is looked up once, and once more where a value is put or goes.
pub(crate) fn on_string_key<N>(
    alloc: Global,
    cmd: StringCmd,
    keys: &mut KeyStore<N>,
    words: &Args,
    left: &mut Vec<N>,
) -> Result<Ran, NoMemory>
    requires { MeetArity (string_commands.command_row cmd) words.now }
    ensures keys { OnOk result (keys.new ≡ (on_string cmd keys.old words.now).keys) }
    ensures told { IfOk result (λ ran. ran ≡ told (on_string cmd keys.old words.now)) }
    ensures left { OnOk result
        (left.new.items ≡ left.old.items ++ (on_string cmd keys.old words.now).left) }
    ensures err { OnErr result ((keys.new ≡ keys.old) × (left.new.items ≡ left.old.items)) }
{
    match keys.get_mut(words.word(1)) {
        Some(held) => {
            let outcome = string_outcome(alloc, cmd, held, words, left)?;
            settle(keys, words.word(1), true, outcome, left)
        }
        None => {
            let outcome = of_string(string_cmds::run(alloc, cmd, None, words)?);
            settle(keys, words.word(1), false, outcome, left)
        }
    }
}

// What a command on a string does to the value of its key, which it may change in its place.
fn string_outcome<N>(
    alloc: Global,
    cmd: StringCmd,
    held: &mut Value<N>,
    words: &Args,
    left: &mut Vec<N>,
) -> Result<Outcome<Plain>, NoMemory>
    requires { MeetArity (string_commands.command_row cmd) words.now }
    ensures does { IfOk result
        (λ o. DoesToValue o held.old held.new
        (done_of plain.Str (string_done cmd (Some held.old) words.now))) }
    ensures room { OnOk result (HasRoom left.new (Some held.new)) }
    ensures same { left.new.items ≡ left.old.items }
    ensures err { OnErr result (held.new ≡ held.old) }
{
    match held {
        Value::Str(text) => Ok(of_string(string_cmds::run(alloc, cmd, Some(text), words)?)),
        other => {
            make_room(Some(&*other), left)?;
            Ok(of_string(string_cmds::run_other_kind(alloc, cmd, words)?))
        }
    }
}
