//! SET, SETNX and GETSET: they give a key a value, whatever it had.

ghost use Rattle.std.specs.Prelude.{◌≡◌, ◌≤◌, drop, List, ℕ, Option, length, IfOk};
ghost use Rattle.core_types.specs.Done.{Does};
ghost use Rattle.string_cmds.specs.Setting.{condition_named, condition_of, may_set, set_if_absent, set_where, sets};

use crate::words::string_note;
use byte_text::same_name;
use core_types::{After, Args, Blob, Effect, NoMemory, Outcome, Reply, Words};
use std::alloc::Global;

/// When SET is to set.
#[derive(Clone, Copy, Debug, PartialEq, Eq)]
pub(crate) enum Condition {
    /// Whatever the key has.
    Always,
    /// `NX`: where the key is not there.
    IfAbsent,
    /// `XX`: where the key is there.
    IfPresent,
}

/// What the words behind the value ask for, or `None` where there are two, or one that is not
/// known.
pub(crate) fn asked_by(rest: Words<'_>) -> Option<Condition>
    ensures { result ≡ condition_of rest.entry }
{
    let mut rest = rest;
    match rest.next() {
        None => Some(Condition::Always),
        Some(name) if rest.is_empty() => named(name),
        Some(_) => None,
    }
}

fn named(name: &[u8]) -> Option<Condition>
    ensures { result ≡ condition_named name.now }
{
    if same_name(name, b"NX") {
        Some(Condition::IfAbsent)
    } else if same_name(name, b"XX") {
        Some(Condition::IfPresent)
    } else {
        None
    }
}

fn may_set(asked: Option<Condition>, there: bool) -> bool
    ensures { result ≡ may_set asked there }
{
    match asked {
        Some(Condition::Always) => true,
        Some(Condition::IfAbsent) => !there,
        Some(Condition::IfPresent) => there,
        None => false,
    }
}

/// `SET k v` with what its further word asks for.
pub(crate) fn set(alloc: Global, there: bool, words: &Args) -> Result<Outcome<Blob>, NoMemory>
    requires { 3 ≤ length words.now }
    ensures { IfOk result
        (λ o. (old : Option (List ℕ)) →
        Does o old old (set_where (condition_of (drop 3 words.now)) there words.now)) }
{
    if may_set(asked_by(words.from_place(3)), there) {
        let ok = Reply::simple(alloc, b"OK")?;
        sets(alloc, ok, words)
    } else {
        Ok(Outcome::answer(alloc, Reply::Null))
    }
}

/// `SETNX k v`.
pub(crate) fn set_if_absent(
    alloc: Global,
    there: bool,
    words: &Args,
) -> Result<Outcome<Blob>, NoMemory>
    requires { 3 ≤ length words.now }
    ensures { IfOk result
        (λ o. (old : Option (List ℕ)) → Does o old old (set_if_absent there words.now)) }
{
    if there {
        Ok(Outcome::answer(alloc, Reply::Int(0)))
    } else {
        sets(alloc, Reply::Int(1), words)
    }
}

/// The key gets the third word.
pub(crate) fn sets(alloc: Global, reply: Reply, words: &Args) -> Result<Outcome<Blob>, NoMemory>
    requires { 3 ≤ length words.now }
    ensures { IfOk result (λ o. (old : Option (List ℕ)) → Does o old old (sets reply words.now)) }
{
    let value = Blob::from_slice(alloc, words.word(2))?;
    let effect = Effect::on_key(alloc, b"SET", words.word(1), words.word(2))?;
    let note = string_note(alloc, b"set", words)?;
    Outcome::change(alloc, After::Put(value), reply, effect, note)
}
