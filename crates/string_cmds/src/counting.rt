//! INCR, DECR, INCRBY and DECRBY: they add to the number that a key holds.

ghost use Rattle.std.specs.Prelude.{◌≡◌, ◌<◌, ◌∷◌, [], pos, codes, length, Some, None, IfOk, OnErr};
ghost use Rattle.core_types.specs.Done.{Does};
ghost use Rattle.byte_text.specs.Number.{number_held};
ghost use Rattle.string_cmds.specs.Counting.{add_effect, adds};
ghost use Rattle.string_cmds.specs.Words.{string_note};

use crate::words::string_note;
use byte_text::{i64_text, read_i64};
use core_types::{After, Args, Blob, Effect, NoMemory, Outcome, Refusal, Reply};
use std::alloc::Global;

/// Adds an amount to the number that the key holds. An amount may be 2^63, which no number of 64
/// bits is.
pub(crate) fn add(
    alloc: Global,
    old: &mut Blob,
    amount: i128,
    words: &Args,
) -> Result<Outcome<Blob>, NoMemory>
    requires { 1 < length words.now }
    ensures does { IfOk result
        (λ o. Does o (Some old.old) (Some old.new)
        (adds amount (number_held (Some old.old)) words.now)) }
    ensures err { OnErr result (old.new ≡ old.old) }
{
    let Some(held) = read_i64(old.as_slice()) else {
        return Outcome::refuse(alloc, Refusal::NotAnInteger);
    };
    let Ok(amount) = i64::try_from(amount) else {
        return Outcome::refuse(alloc, Refusal::DecrementOverflow);
    };
    let Some(sum) = held.checked_add(amount) else {
        return Outcome::refuse(alloc, Refusal::Overflow);
    };
    let outcome = added(alloc, After::Keep, sum, amount, words)?;
    old.assign(i64_text(sum).as_slice())?;
    Ok(outcome)
}

/// The amount added to 0, as the key is not there.
pub(crate) fn add_new(alloc: Global, amount: i128, words: &Args) -> Result<Outcome<Blob>, NoMemory>
    requires { 1 < length words.now }
    ensures does { IfOk result (λ o. Does o None None (adds amount (Some (pos 0)) words.now)) }
{
    match i64::try_from(amount) {
        Ok(sum) => {
            let value = Blob::from_slice(alloc, i64_text(sum).as_slice())?;
            added(alloc, After::Put(value), sum, sum, words)
        }
        Err(_) => Outcome::refuse(alloc, Refusal::DecrementOverflow),
    }
}

// The outcome of an amount that was added.
fn added(
    alloc: Global,
    body: After<Blob>,
    sum: i64,
    amount: i64,
    words: &Args,
) -> Result<Outcome<Blob>, NoMemory>
    requires { 1 < length words.now }
    ensures outcome { IfOk result (λ o. o ≡ record {
      body = body;
      reply = Reply.Int sum;
      effects = add_effect amount words.now ∷ [];
      notes = string_note (codes "incrby") words.now ∷ [];
    }) }
{
    let effect = Effect::on_key(alloc, b"INCRBY", words.word(1), i64_text(amount).as_slice())?;
    let note = string_note(alloc, b"incrby", words)?;
    Outcome::change(alloc, body, Reply::Int(sum), effect, note)
}
