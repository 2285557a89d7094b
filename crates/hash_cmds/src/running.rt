//! Runs a command on one key.

ghost use Rattle.std.specs.Prelude.{◌≡◌, ◌≢◌, List, ℕ, [], Some, None, IfOk, IfSome, OnErr};
ghost use Rattle.std.specs.Option.{option_copied_mut};
ghost use Rattle.core_types.specs.CommandRow.{MeetArity};
ghost use Rattle.core_types.specs.Done.{Does, answers, option_left};
ghost use Rattle.hash_cmds.specs.Commands.{command_row};
ghost use Rattle.hash_cmds.specs.Rows.{other_row, row, served};

use crate::HashCmd;
use crate::counting::add;
use crate::reading::{Shown, count_fields, exists, get, get_each, show_fields, value_length};
use crate::refusing::refusal;
use crate::removing::remove_fields;
use crate::setting::{set_all, set_fields, set_if_absent};
use core_types::{After, Args, HashBody, NoMemory, Outcome, Refusal, Replies, Reply};
use std::alloc::Global;
use std::hash::RandomState;

/// Runs a command on a key that holds the hash `old`, or is not there. `Keep` says that `old` was
/// changed in place or not at all. After an `Err` it is as it was. A new hash hashes its names with
/// these keys.
pub fn run(
    alloc: Global,
    keys: RandomState,
    cmd: HashCmd,
    old: Option<&mut HashBody>,
    words: &Args,
) -> Result<Outcome<HashBody>, NoMemory>
    requires arity { MeetArity (command_row cmd) words.now }
    ensures does { IfOk result
        (λ outcome. Does outcome (option_copied_mut old.entry) (option_left old.exit)
        (row cmd (option_copied_mut old.entry) words.now)) }
    ensures err { OnErr result (option_left old.exit ≡ option_copied_mut old.entry) }
{
    match old {
        Some(hash) => run_on(alloc, cmd, hash, words),
        None => run_absent(alloc, keys, cmd, words),
    }
}

/// Runs a command on a key that holds another kind of value: it is refused, for its words or for
/// the kind.
pub fn run_other_kind(
    alloc: Global,
    cmd: HashCmd,
    words: &Args,
) -> Result<Outcome<HashBody>, NoMemory>
    requires arity { MeetArity (command_row cmd) words.now }
    ensures does { IfOk result (λ outcome. Does outcome None None (other_row cmd words.now)) }
{
    match refusal(alloc, cmd, words)? {
        Some(error) => Ok(Outcome::answer(alloc, error)),
        None => Outcome::refuse(alloc, Refusal::WrongType),
    }
}

fn run_on(
    alloc: Global,
    cmd: HashCmd,
    old: &mut HashBody,
    words: &Args,
) -> Result<Outcome<HashBody>, NoMemory>
    requires { MeetArity (command_row cmd) words.now }
    ensures does { IfOk result
        (λ o. Does o (Some old.old) (Some old.new) (row cmd (Some old.old) words.now)) }
    ensures err { OnErr result (old.new ≡ old.old) }
{
    match refusal(alloc, cmd, words)? {
        Some(error) => Ok(Outcome::answer(alloc, error)),
        None => serve(alloc, cmd, old, words),
    }
}

fn run_absent(
    alloc: Global,
    keys: RandomState,
    cmd: HashCmd,
    words: &Args,
) -> Result<Outcome<HashBody>, NoMemory>
    requires { MeetArity (command_row cmd) words.now }
    ensures does { IfOk result (λ o. Does o None None (row cmd None words.now)) }
{
    match empty_answer(alloc, cmd) {
        Some(reply) => Ok(Outcome::answer(alloc, reply)),
        None => run_fresh(alloc, keys, cmd, words),
    }
}

// What a command that reads a key answers of one that is not there, where that takes no memory.
fn empty_answer(alloc: Global, cmd: HashCmd) -> Option<Reply>
    ensures { IfSome result
        (λ said. (words : List (List ℕ)) → row cmd None words ≡ answers said) }
{
    match cmd {
        HashCmd::HGet => Some(Reply::Null),
        HashCmd::HLen | HashCmd::HExists | HashCmd::HStrLen => Some(Reply::Int(0)),
        HashCmd::HKeys | HashCmd::HVals | HashCmd::HGetAll => {
            Some(Reply::Array(Replies::new(alloc)))
        }
        _ => None,
    }
}

// The command runs on a hash without fields, which becomes the key's where it was changed.
fn run_fresh(
    alloc: Global,
    keys: RandomState,
    cmd: HashCmd,
    words: &Args,
) -> Result<Outcome<HashBody>, NoMemory>
    requires { MeetArity (command_row cmd) words.now }
    ensures does { IfOk result (λ o. Does o None None (row cmd None words.now)) }
{
    let mut fresh = HashBody::new(alloc, keys)?;
    let outcome = run_on(alloc, cmd, &mut fresh, words)?;
    Ok(put_where_changed(outcome, fresh))
}

fn put_where_changed(outcome: Outcome<HashBody>, fresh: HashBody) -> Outcome<HashBody>
    ensures same { outcome.effects ≡ [] → result ≡ outcome }
    ensures put { outcome.effects ≢ [] → result ≡ record outcome { body = After.Put fresh } }
{
    if outcome.effects.is_empty() {
        outcome
    } else {
        Outcome {
            body: After::Put(fresh),
            ..outcome
        }
    }
}

// A command whose words are not refused.
fn serve(
    alloc: Global,
    cmd: HashCmd,
    hash: &mut HashBody,
    words: &Args,
) -> Result<Outcome<HashBody>, NoMemory>
    requires { MeetArity (command_row cmd) words.now }
    ensures does { IfOk result
        (λ o. Does o (Some hash.old) (Some hash.new) (served cmd hash.old words.now)) }
    ensures err { OnErr result (hash.new ≡ hash.old) }
{
    match cmd {
        HashCmd::HSet => set_fields(alloc, hash, words),
        HashCmd::HMSet => set_all(alloc, hash, words),
        HashCmd::HSetNx => set_if_absent(alloc, hash, words),
        HashCmd::HGet => get(alloc, hash, words),
        HashCmd::HMGet => get_each(alloc, hash, words),
        HashCmd::HDel => remove_fields(alloc, hash, words),
        HashCmd::HLen => Ok(count_fields(alloc, hash)),
        HashCmd::HExists => Ok(exists(alloc, hash, words)),
        HashCmd::HStrLen => Ok(value_length(alloc, hash, words)),
        HashCmd::HKeys => show_fields(alloc, hash, Shown::Names),
        HashCmd::HVals => show_fields(alloc, hash, Shown::Values),
        HashCmd::HGetAll => show_fields(alloc, hash, Shown::Both),
        HashCmd::HIncrBy => add(alloc, hash, words),
    }
}
