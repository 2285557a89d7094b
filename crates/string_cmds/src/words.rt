//! What the words of a command say.

ghost use Rattle.std.specs.Prelude.{◌≡◌, ◌<◌, ◌^◌, neg_ℤ, length, IfOk};
ghost use Rattle.byte_text.specs.Number.{number_in};
ghost use Rattle.sequences.specs.Words.{word};
ghost use Rattle.string_cmds.specs.Words.{offset_of, string_note};

use byte_text::number_in;
use core_types::{Args, NoMemory, Note, NoteClass};
use std::alloc::Global;

/// What is to be added where the number at a place is taken away. It may be 2^63, which no `i64`
/// is.
pub(crate) fn taken_away(words: &Args, place: usize) -> i128
    requires { place < length words.now }
    ensures { result ≡ neg_ℤ (number_in (word place words.now)) }
{
    -i128::from(number_in(words.word(place)))
}

/// The number at a place as an offset: 0 where it is below 0.
pub(crate) fn offset(words: &Args, place: usize) -> usize
    requires { place < length words.now }
    ensures short { result < 2 ^ 63 }
    ensures offset { result ≡ offset_of (number_in (word place words.now)) }
{
    number_in(words.word(place)).max(0) as usize
}

/// An event of a string, on the key of these words.
pub(crate) fn string_note(alloc: Global, name: &[u8], words: &Args) -> Result<Note, NoMemory>
    requires { 1 < length words.now }
    ensures { IfOk result (λ note. note ≡ string_note name.now words.now) }
{
    Note::on_key(alloc, NoteClass::String, name, words)
}
