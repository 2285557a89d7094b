//! APPEND and SETRANGE: they write into a string.

ghost use Rattle.std.specs.Prelude.{◌≡◌, ◌<◌, ◌+◌, ◌^◌, ◌∷◌, [], pos, codes, length, Some, None, IfOk, OnOk, OnErr};
ghost use Rattle.core_types.specs.Done.{Does, own_words};
ghost use Rattle.string_cmds.specs.Words.{string_note};
ghost use Rattle.string_cmds.specs.Writing.{append, laid_over, set_range};

use crate::words::{offset, string_note};
use core_types::{After, Args, Blob, Effect, NoMemory, Outcome, Refusal, Reply};
use std::alloc::Global;

// The most bytes that a string may have.
const LONGEST: usize = 536_870_912;

/// `APPEND k v`, where the key holds a string.
pub(crate) fn append(alloc: Global, old: &mut Blob, words: &Args) -> Result<Outcome<Blob>, NoMemory>
    requires { length words.now ≡ 3 }
    ensures does { IfOk result
        (λ o. Does o (Some old.old) (Some old.new) (append (Some old.old) words.now)) }
    ensures err { OnErr result (old.new ≡ old.old) }
{
    let piece = words.word(2);
    let size = old.as_slice().len() + piece.len();
    if piece.is_empty() {
        return Ok(Outcome::answer(alloc, Reply::Int(size as i64)));
    }
    if size > LONGEST {
        return Outcome::refuse(alloc, Refusal::TooLong);
    }
    let outcome = appended(alloc, After::Keep, size, words)?;
    old.push_slice(piece)?;
    Ok(outcome)
}

/// `APPEND k v`, where the key is not there.
pub(crate) fn append_new(alloc: Global, words: &Args) -> Result<Outcome<Blob>, NoMemory>
    requires { length words.now ≡ 3 }
    ensures does { IfOk result (λ o. Does o None None (append None words.now)) }
{
    let piece = words.word(2);
    if piece.len() > LONGEST {
        return Outcome::refuse(alloc, Refusal::TooLong);
    }
    let value = Blob::from_slice(alloc, piece)?;
    appended(alloc, After::Put(value), piece.len(), words)
}

// An APPEND has made a string of this size.
fn appended(
    alloc: Global,
    body: After<Blob>,
    size: usize,
    words: &Args,
) -> Result<Outcome<Blob>, NoMemory>
    requires key { 1 < length words.now }
    requires short { size < 2 ^ 63 }
    ensures outcome { IfOk result (λ o. o ≡ record {
      body = body;
      reply = Reply.Int (pos size);
      effects = own_words (codes "APPEND") words.now ∷ [];
      notes = string_note (codes "append") words.now ∷ [];
    }) }
{
    let effect = Effect::own_words(alloc, b"APPEND", words)?;
    let note = string_note(alloc, b"append", words)?;
    Outcome::change(alloc, body, Reply::Int(size as i64), effect, note)
}

/// `SETRANGE k o v`, where the key holds a string.
pub(crate) fn set_range(
    alloc: Global,
    old: &mut Blob,
    words: &Args,
) -> Result<Outcome<Blob>, NoMemory>
    requires { length words.now ≡ 4 }
    ensures does { IfOk result
        (λ o. Does o (Some old.old) (Some old.new) (set_range old.old words.now)) }
    ensures err { OnErr result (old.new ≡ old.old) }
{
    let piece = words.word(3);
    let size = old.as_slice().len();
    if piece.is_empty() {
        return Ok(Outcome::answer(alloc, Reply::Int(size as i64)));
    }
    let start = offset(words, 2);
    let end = start + piece.len();
    if end > LONGEST {
        return Outcome::refuse(alloc, Refusal::TooLong);
    }
    let outcome = range_set(alloc, After::Keep, size.max(end), words)?;
    lay_over(old, start, piece)?;
    Ok(outcome)
}

/// `SETRANGE k o v`, where the key is not there.
pub(crate) fn set_range_new(alloc: Global, words: &Args) -> Result<Outcome<Blob>, NoMemory>
    requires { length words.now ≡ 4 }
    ensures does { IfOk result (λ o. Does o None None (set_range [] words.now)) }
{
    let piece = words.word(3);
    if piece.is_empty() {
        return Ok(Outcome::answer(alloc, Reply::Int(0)));
    }
    let start = offset(words, 2);
    let end = start + piece.len();
    if end > LONGEST {
        return Outcome::refuse(alloc, Refusal::TooLong);
    }
    let mut value = Blob::new(alloc);
    lay_over(&mut value, start, piece)?;
    range_set(alloc, After::Put(value), end, words)
}

// Writes a piece over the bytes from a place on, with zero bytes where there are none before it.
fn lay_over(value: &mut Blob, start: usize, piece: &[u8]) -> Result<(), NoMemory>
    requires { start + length piece.now < 2 ^ 64 }
    ensures ok { OnOk result (value.new ≡ laid_over value.old start piece.now) }
    ensures err { OnErr result (value.new ≡ value.old) }
{
    value.grow(start + piece.len())?;
    value.overwrite(start, piece);
    Ok(())
}

// A SETRANGE has made a string of this size.
fn range_set(
    alloc: Global,
    body: After<Blob>,
    size: usize,
    words: &Args,
) -> Result<Outcome<Blob>, NoMemory>
    requires key { 1 < length words.now }
    requires short { size < 2 ^ 63 }
    ensures outcome { IfOk result (λ o. o ≡ record {
      body = body;
      reply = Reply.Int (pos size);
      effects = own_words (codes "SETRANGE") words.now ∷ [];
      notes = string_note (codes "setrange") words.now ∷ [];
    }) }
{
    let effect = Effect::own_words(alloc, b"SETRANGE", words)?;
    let note = string_note(alloc, b"setrange", words)?;
    Outcome::change(alloc, body, Reply::Int(size as i64), effect, note)
}
