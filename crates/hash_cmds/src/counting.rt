//! HINCRBY: it adds to the number that a field holds.

ghost use Rattle.std.specs.Prelude.{◌≡◌, ◌<◌, ◌∷◌, [], codes, length, Some, IfOk, OnErr};
ghost use Rattle.core_types.specs.Done.{Does, own_words};
ghost use Rattle.core_types.specs.Fields.{field_value};
ghost use Rattle.byte_text.specs.Number.{number_held};
ghost use Rattle.hash_cmds.specs.Counting.{add};
ghost use Rattle.hash_cmds.specs.Words.{hash_note};

use crate::words::hash_note;
use byte_text::{i64_text, number_in, read_i64};
use core_types::{After, Args, Blob, Effect, HashBody, NoMemory, Outcome, Refusal, Reply};
use std::alloc::Global;

/// `HINCRBY k f n`: a field that is not there counts as 0.
pub(crate) fn add(
    alloc: Global,
    hash: &mut HashBody,
    words: &Args,
) -> Result<Outcome<HashBody>, NoMemory>
    requires { length words.now ≡ 4 }
    ensures does { IfOk result
        (λ o. Does o (Some hash.old) (Some hash.new) (add hash.old words.now)) }
    ensures err { OnErr result (hash.new ≡ hash.old) }
{
    let Some(held) = number_held(hash, words.word(2)) else {
        return Outcome::refuse(alloc, Refusal::HashNotAnInteger);
    };
    let Some(sum) = held.checked_add(number_in(words.word(3))) else {
        return Outcome::refuse(alloc, Refusal::Overflow);
    };
    let outcome = added(alloc, sum, words)?;
    let value = Blob::from_slice(alloc, i64_text(sum).as_slice())?;
    hash.put(alloc, words.word(2), value)?;
    Ok(outcome)
}

// The number that a field holds, or 0 where it is not there.
fn number_held(hash: &HashBody, name: &[u8]) -> Option<i64>
    ensures { result ≡ number_held (field_value hash.now name.now) }
{
    match hash.get(name) {
        Some(value) => read_i64(value.as_slice()),
        None => Some(0),
    }
}

// What is done where the field gets this sum.
fn added(alloc: Global, sum: i64, words: &Args) -> Result<Outcome<HashBody>, NoMemory>
    requires { 1 < length words.now }
    ensures { IfOk result (λ o. o ≡ record {
      body = After.Keep;
      reply = Reply.Int sum;
      effects = own_words (codes "HINCRBY") words.now ∷ [];
      notes = hash_note (codes "hincrby") words.now ∷ [];
    }) }
{
    let effect = Effect::own_words(alloc, b"HINCRBY", words)?;
    let note = hash_note(alloc, b"hincrby", words)?;
    Outcome::change(alloc, After::Keep, Reply::Int(sum), effect, note)
}
