//! The words of a command, and which of them write.

ghost use Rattle.std.specs.Prelude.{◌≡◌, ◌<◌, length, map, IfOk};
ghost use Rattle.std.specs.Char.{to_ascii_uppercase};
ghost use Rattle.core_types.specs.CommandRow.{row_of_spec};
ghost use Rattle.sequences.specs.Words.{word};
ghost use Rattle.one_key.specs.OwnWords.{is_write, own};

use core_types::{Args, CommandSpec, Effect, NoMemory};
use std::alloc::Global;

/// The word at this place, and behind the last word none.
pub fn word_at(words: &Args, place: usize) -> &[u8]
    ensures { result.now ≡ word place words.now }
{
    match words.get(place) {
        Some(word) => word,
        None => b"",
    }
}

/// A name in upper case.
pub fn upper(alloc: Global, name: &[u8]) -> Result<Vec<u8>, NoMemory>
    ensures { IfOk result (λ upper. upper.items ≡ map to_ascii_uppercase name.now) }
{
    Ok(
        name.iter()
            .map(|byte| byte.to_ascii_uppercase())
            .collect(alloc)?,
    )
}

/// The words of a command, its name in upper case.
pub(crate) fn own(alloc: Global, words: &Args) -> Result<Effect, NoMemory>
    requires { 0 < length words.now }
    ensures { IfOk result (λ effect. effect.words ≡ own words.now) }
{
    let name = upper(alloc, words.word(0))?;
    Effect::own_words(alloc, &name, words)
}

/// Whether the words are those of one of these commands, as many as it takes, and it writes.
pub(crate) fn is_write(commands: &[CommandSpec], words: &Args) -> bool
    requires { 0 < length words.now }
    ensures { result ≡ is_write (map row_of_spec commands.now) words.now }
{
    let name = words.word(0);
    for spec in commands {
        if spec.name == name {
            return spec.writes && spec.takes(words.len());
        }
    }
    false
}
