//! Runs a command on one key.

ghost use Rattle.std.specs.Prelude.{◌≡◌, Some, None, IfOk, OnErr};
ghost use Rattle.std.specs.Option.{option_copied_mut};
ghost use Rattle.core_types.specs.CommandRow.{MeetArity};
ghost use Rattle.core_types.specs.Done.{Does, option_left};
ghost use Rattle.list_cmds.specs.Commands.{command_row};
ghost use Rattle.list_cmds.specs.Rows.{other_row, row, served};

use crate::ListCmd;
use crate::adding::{push_back, push_back_new, push_front, push_front_new, set_item};
use crate::reading::{index, range};
use crate::refusing::refusal;
use crate::taking::{pop_back, pop_front, remove, trim};
use crate::words::counted;
use core_types::{Args, ListBody, NoMemory, Outcome, Refusal, Replies, Reply};
use std::alloc::Global;

/// Runs a command on a key that holds the list `old`, or is not there. `Keep` says that `old` was
/// changed in place or not at all, `Remove` that no item is left. After an `Err` it is as it was.
pub fn run(
    alloc: Global,
    cmd: ListCmd,
    old: Option<&mut ListBody>,
    words: &Args,
) -> Result<Outcome<ListBody>, NoMemory>
    requires arity { MeetArity (command_row cmd) words.now }
    ensures does { IfOk result
        (λ outcome. Does outcome (option_copied_mut old.entry) (option_left old.exit)
        (row cmd (option_copied_mut old.entry) words.now)) }
    ensures err { OnErr result (option_left old.exit ≡ option_copied_mut old.entry) }
{
    match old {
        Some(value) => run_on(alloc, cmd, value, words),
        None => run_absent(alloc, cmd, words),
    }
}

/// Runs a command on a key that holds another kind of value: it is refused, first for its own
/// words.
pub fn run_other_kind(
    alloc: Global,
    cmd: ListCmd,
    words: &Args,
) -> Result<Outcome<ListBody>, NoMemory>
    requires arity { MeetArity (command_row cmd) words.now }
    ensures does { IfOk result (λ outcome. Does outcome None None (other_row cmd words.now)) }
{
    match refusal(cmd, words) {
        Some(refusal) => Outcome::refuse(alloc, refusal),
        None => Outcome::refuse(alloc, Refusal::WrongType),
    }
}

fn run_on(
    alloc: Global,
    cmd: ListCmd,
    old: &mut ListBody,
    words: &Args,
) -> Result<Outcome<ListBody>, NoMemory>
    requires { MeetArity (command_row cmd) words.now }
    ensures does { IfOk result
        (λ o. Does o (Some old.old) (Some old.new) (row cmd (Some old.old) words.now)) }
    ensures err { OnErr result (old.new ≡ old.old) }
{
    match refusal(cmd, words) {
        Some(refusal) => Outcome::refuse(alloc, refusal),
        None => serve(alloc, cmd, old, words),
    }
}

fn run_absent(alloc: Global, cmd: ListCmd, words: &Args) -> Result<Outcome<ListBody>, NoMemory>
    requires { MeetArity (command_row cmd) words.now }
    ensures does { IfOk result (λ o. Does o None None (row cmd None words.now)) }
{
    match refusal(cmd, words) {
        Some(refusal) => Outcome::refuse(alloc, refusal),
        None => serve_absent(alloc, cmd, words),
    }
}

// A command whose words are not refused, on a key that holds a list.
fn serve(
    alloc: Global,
    cmd: ListCmd,
    old: &mut ListBody,
    words: &Args,
) -> Result<Outcome<ListBody>, NoMemory>
    requires { MeetArity (command_row cmd) words.now }
    ensures does { IfOk result
        (λ o. Does o (Some old.old) (Some old.new) (served cmd (Some old.old) words.now)) }
    ensures err { OnErr result (old.new ≡ old.old) }
{
    match cmd {
        ListCmd::LPush => push_front(alloc, old, words),
        ListCmd::RPush => push_back(alloc, old, words),
        ListCmd::LPop => pop_front(alloc, old, words),
        ListCmd::RPop => pop_back(alloc, old, words),
        ListCmd::LLen => Ok(Outcome::answer(alloc, counted(old.len()))),
        ListCmd::LIndex => index(alloc, old, words),
        ListCmd::LRange => range(alloc, old, words),
        ListCmd::LSet => set_item(alloc, old, words),
        ListCmd::LTrim => trim(alloc, old, words),
        ListCmd::LRem => remove(alloc, old, words),
    }
}

// A command whose words are not refused, on a key that is not there.
fn serve_absent(alloc: Global, cmd: ListCmd, words: &Args) -> Result<Outcome<ListBody>, NoMemory>
    requires { MeetArity (command_row cmd) words.now }
    ensures does { IfOk result (λ o. Does o None None (served cmd None words.now)) }
{
    match cmd {
        ListCmd::LPush => push_front_new(alloc, words),
        ListCmd::RPush => push_back_new(alloc, words),
        ListCmd::LPop | ListCmd::RPop => Ok(Outcome::answer(alloc, Reply::Null)),
        ListCmd::LLen => Ok(Outcome::answer(alloc, Reply::Int(0))),
        ListCmd::LIndex => Ok(Outcome::answer(alloc, Reply::Null)),
        ListCmd::LRange => Ok(Outcome::answer(alloc, Reply::Array(Replies::new(alloc)))),
        ListCmd::LSet => Outcome::refuse(alloc, Refusal::NoSuchKey),
        ListCmd::LTrim => Ok(Outcome::answer(alloc, Reply::simple(alloc, b"OK")?)),
        ListCmd::LRem => Ok(Outcome::answer(alloc, Reply::Int(0))),
    }
}
