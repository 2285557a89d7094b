//! Runs a command on one key.

ghost use Rattle.std.specs.Prelude.{◌≡◌, Some, None, IfOk, OnErr};
ghost use Rattle.std.specs.Option.{option_copied_mut};
ghost use Rattle.core_types.specs.CommandRow.{MeetArity};
ghost use Rattle.core_types.specs.Done.{Does, option_left};
ghost use Rattle.string_cmds.specs.Commands.{command_row};
ghost use Rattle.string_cmds.specs.Rows.{other_row, row, served, served_other};

use crate::StringCmd;
use crate::counting::{add, add_new};
use crate::reading::get_range;
use crate::refusing::refusal;
use crate::setting::{set, set_if_absent, sets};
use crate::words::taken_away;
use crate::writing::{append, append_new, set_range, set_range_new};
use byte_text::number_in;
use core_types::{Args, Blob, NoMemory, Outcome, Refusal, Reply};
use std::alloc::Global;

/// Runs a command on a key that holds the string `old`, or is not there. `Keep` says that `old` was
/// changed in place or not at all. After an `Err` it is as it was.
pub fn run(
    alloc: Global,
    cmd: StringCmd,
    old: Option<&mut Blob>,
    words: &Args,
) -> Result<Outcome<Blob>, NoMemory>
    requires arity { MeetArity (command_row cmd) words.now }
    ensures does { IfOk result
        (λ outcome. Does outcome (option_copied_mut old.entry) (option_left old.exit)
        (row cmd (option_copied_mut old.entry) words.now)) }
    ensures err { OnErr result (option_left old.exit ≡ option_copied_mut old.entry) }
{
    match old {
        Some(value) => run_on(alloc, cmd, value, words),
        None => run_absent(alloc, cmd, words),
    }
}

/// Runs a command on a key that holds another kind of value: SET and SETNX ask no more than that it
/// is there, and the others are refused.
pub fn run_other_kind(
    alloc: Global,
    cmd: StringCmd,
    words: &Args,
) -> Result<Outcome<Blob>, NoMemory>
    requires arity { MeetArity (command_row cmd) words.now }
    ensures does { IfOk result (λ outcome. Does outcome None None (other_row cmd words.now)) }
{
    match refusal(cmd, words) {
        Some(refusal) => Outcome::refuse(alloc, refusal),
        None => serve_other(alloc, cmd, words),
    }
}

fn run_on(
    alloc: Global,
    cmd: StringCmd,
    old: &mut Blob,
    words: &Args,
) -> Result<Outcome<Blob>, NoMemory>
    requires { MeetArity (command_row cmd) words.now }
    ensures does { IfOk result
        (λ o. Does o (Some old.old) (Some old.new) (row cmd (Some old.old) words.now)) }
    ensures err { OnErr result (old.new ≡ old.old) }
{
    match refusal(cmd, words) {
        Some(refusal) => Outcome::refuse(alloc, refusal),
        None => serve(alloc, cmd, old, words),
    }
}

fn run_absent(alloc: Global, cmd: StringCmd, words: &Args) -> Result<Outcome<Blob>, NoMemory>
    requires { MeetArity (command_row cmd) words.now }
    ensures does { IfOk result (λ o. Does o None None (row cmd None words.now)) }
{
    match refusal(cmd, words) {
        Some(refusal) => Outcome::refuse(alloc, refusal),
        None => serve_absent(alloc, cmd, words),
    }
}

// A command whose words are not refused, on a key that holds a string.
fn serve(
    alloc: Global,
    cmd: StringCmd,
    old: &mut Blob,
    words: &Args,
) -> Result<Outcome<Blob>, NoMemory>
    requires { MeetArity (command_row cmd) words.now }
    ensures does { IfOk result
        (λ o. Does o (Some old.old) (Some old.new) (served cmd (Some old.old) words.now)) }
    ensures err { OnErr result (old.new ≡ old.old) }
{
    match cmd {
        StringCmd::Get => Ok(Outcome::answer(alloc, Reply::Bulk(old.copy(alloc)?))),
        StringCmd::Set => set(alloc, true, words),
        StringCmd::SetNx => set_if_absent(alloc, true, words),
        StringCmd::GetSet => sets(alloc, Reply::Bulk(old.copy(alloc)?), words),
        StringCmd::Append => append(alloc, old, words),
        StringCmd::StrLen => {
            Ok(Outcome::answer(alloc, Reply::Int(old.as_slice().len() as i64)))
        },
        StringCmd::GetRange => get_range(alloc, old.as_slice(), words),
        StringCmd::SetRange => set_range(alloc, old, words),
        StringCmd::Incr => add(alloc, old, 1, words),
        StringCmd::Decr => add(alloc, old, -1, words),
        StringCmd::IncrBy => add(alloc, old, i128::from(number_in(words.word(2))), words),
        StringCmd::DecrBy => add(alloc, old, taken_away(words, 2), words),
    }
}

// A command whose words are not refused, on a key that is not there.
fn serve_absent(alloc: Global, cmd: StringCmd, words: &Args) -> Result<Outcome<Blob>, NoMemory>
    requires { MeetArity (command_row cmd) words.now }
    ensures does { IfOk result (λ o. Does o None None (served cmd None words.now)) }
{
    match cmd {
        StringCmd::Get => Ok(Outcome::answer(alloc, Reply::Null)),
        StringCmd::Set => set(alloc, false, words),
        StringCmd::SetNx => set_if_absent(alloc, false, words),
        StringCmd::GetSet => sets(alloc, Reply::Null, words),
        StringCmd::Append => append_new(alloc, words),
        StringCmd::StrLen => Ok(Outcome::answer(alloc, Reply::Int(0))),
        StringCmd::GetRange => get_range(alloc, &[], words),
        StringCmd::SetRange => set_range_new(alloc, words),
        StringCmd::Incr => add_new(alloc, 1, words),
        StringCmd::Decr => add_new(alloc, -1, words),
        StringCmd::IncrBy => add_new(alloc, i128::from(number_in(words.word(2))), words),
        StringCmd::DecrBy => add_new(alloc, taken_away(words, 2), words),
    }
}

// A command whose words are not refused, on a key that holds another kind of value.
fn serve_other(alloc: Global, cmd: StringCmd, words: &Args) -> Result<Outcome<Blob>, NoMemory>
    requires { MeetArity (command_row cmd) words.now }
    ensures does { IfOk result (λ o. Does o None None (served_other cmd words.now)) }
{
    match cmd {
        StringCmd::Set => set(alloc, true, words),
        StringCmd::SetNx => set_if_absent(alloc, true, words),
        _ => Outcome::refuse(alloc, Refusal::WrongType),
    }
}
