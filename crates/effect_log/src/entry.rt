//! What stands where a request of the log is due.

ghost use Rattle.std.specs.Prelude.{◌≡◌, IfOk};
ghost use Rattle.effect_log.specs.Unit as spec;
ghost use Rattle.effect_log.specs.Entry.{IsEntry, IsEntryOf};

use crate::reason::Reason;
use core_types::{Args, Effect, NoMemory};
use resp_codec::{Array, read_array};
use std::alloc::Global;

/// What stands where a request is due.
#[derive(Drop)]
pub(crate) enum Entry {
    /// The request that opens a unit, and how many bytes it takes.
    Multi(usize),
    /// The request that closes a unit, and how many bytes it takes.
    Exec(usize),
    /// An effect, and how many bytes it takes.
    Effect(Effect, usize),
    /// Nothing, or a part of a request.
    Unfinished,
    /// No request: the place of what is wrong, and why.
    Bad(usize, Reason),
}

/// Reads what stands at the front of the bytes.
pub(crate) fn read_entry(alloc: Global, bytes: &[u8]) -> Result<Entry, NoMemory>
    ensures { IfOk result (IsEntry bytes.now) }
{
    if bytes.is_empty() {
        return Ok(Entry::Unfinished);
    }
    match read_array(alloc, bytes)? {
        Array::Request(words, size) => Ok(entry_of(words, size)),
        Array::Empty | Array::Other => Ok(Entry::Bad(0, Reason::NotMultibulk)),
        Array::Unfinished => Ok(Entry::Unfinished),
        Array::Bad(kind, place) => Ok(Entry::Bad(place, Reason::Request(kind))),
    }
}

// What a request is to its unit.
fn entry_of(words: Args, size: usize) -> Entry
    ensures { IsEntryOf words size result }
{
    if is_named(&words, b"MULTI") {
        return Entry::Multi(size);
    }
    if is_named(&words, b"EXEC") {
        return Entry::Exec(size);
    }
    Entry::Effect(Effect { words }, size)
}

// Whether the first word is this name, in any case of letters.
fn is_named(words: &Args, name: &[u8]) -> bool
    ensures { result ≡ spec.is_named name.now words.now }
{
    match words.get(0) {
        Some(first) => first.eq_ignore_ascii_case(name),
        None => false,
    }
}
