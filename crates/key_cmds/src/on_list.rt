//! The commands on one list.

ghost use Rattle.std.specs.Prelude.{◌≡◌, ◌++◌, Some, IfOk, OnOk, OnErr};
ghost use Rattle.core_types.specs.CommandRow.{MeetArity};
ghost use Rattle.list_cmds.specs.Commands as list_commands;
ghost use Rattle.key_cmds.specs.OneKey.{on_list, list_done};
ghost use Rattle.key_cmds.specs.Run.{told};
ghost use Rattle.key_cmds.specs.declared.plain.Plain.TheVariants as plain;
ghost use Rattle.key_cmds.specs.inner.Plain.{done_of};
ghost use Rattle.key_cmds.specs.inner.Settling.{DoesToValue, HasRoom};

use crate::Ran;
use crate::plain::{Plain, of_list};
use crate::settling::{make_room, settle};
use core_types::{Args, NoMemory, Outcome, Value};
use key_store::KeyStore;
use list_cmds::ListCmd;
use std::alloc::Global;

/// A command on a list. The key is looked up once, and once more where a value is put or goes.
pub(crate) fn on_list_key<N>(
    alloc: Global,
    cmd: ListCmd,
    keys: &mut KeyStore<N>,
    words: &Args,
    left: &mut Vec<N>,
) -> Result<Ran, NoMemory>
    requires { MeetArity (list_commands.command_row cmd) words.now }
    ensures keys { OnOk result (keys.new ≡ (on_list cmd keys.old words.now).keys) }
    ensures told { IfOk result (λ ran. ran ≡ told (on_list cmd keys.old words.now)) }
    ensures left { OnOk result
        (left.new.items ≡ left.old.items ++ (on_list cmd keys.old words.now).left) }
    ensures err { OnErr result ((keys.new ≡ keys.old) × (left.new.items ≡ left.old.items)) }
{
    match keys.get_mut(words.word(1)) {
        Some(held) => {
            let outcome = list_outcome(alloc, cmd, held, words, left)?;
            settle(keys, words.word(1), true, outcome, left)
        }
        None => {
            let outcome = of_list(list_cmds::run(alloc, cmd, None, words)?);
            settle(keys, words.word(1), false, outcome, left)
        }
    }
}

// What a command on a list does to the value of its key, which it may change in its place.
fn list_outcome<N>(
    alloc: Global,
    cmd: ListCmd,
    held: &mut Value<N>,
    words: &Args,
    left: &mut Vec<N>,
) -> Result<Outcome<Plain>, NoMemory>
    requires { MeetArity (list_commands.command_row cmd) words.now }
    ensures does { IfOk result
        (λ o. DoesToValue o held.old held.new
        (done_of plain.List (list_done cmd (Some held.old) words.now))) }
    ensures room { OnOk result (HasRoom left.new (Some held.new)) }
    ensures same { left.new.items ≡ left.old.items }
    ensures err { OnErr result (held.new ≡ held.old) }
{
    match held {
        Value::List(items) => Ok(of_list(list_cmds::run(alloc, cmd, Some(items), words)?)),
        other => {
            make_room(Some(&*other), left)?;
            Ok(of_list(list_cmds::run_other_kind(alloc, cmd, words)?))
        }
    }
}
