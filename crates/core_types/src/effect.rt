//! Words of a change to be done again, and of a module's answer to a note.

ghost use Rattle.std.specs.Prelude.{◌≡◌, ◌<◌, [], ◌∷◌, length, IfOk};
ghost use Rattle.core_types.specs.Done.{own_words};

use crate::{Args, Duplicate, NoMemory, Sequence, Words};
use std::alloc::Global;

/// One change of the keys, as the words of a command that makes it.
#[derive(Debug, Drop)]
pub struct Effect {
    /// The command's name, in upper case, and its arguments.
    pub words: Args,
}

impl Effect {
    /// The words of a command, with this name in place of the first.
    pub fn own_words(alloc: Global, name: &[u8], words: &Args) -> Result<Effect, NoMemory>
        requires { 0 < length words.now }
        ensures words { IfOk result (λ effect. effect ≡ own_words name.now words.now) }
    {
        let bytes = name.len().saturating_add(size_of(words.from_place(1)));
        let mut copied = Args::new(alloc);
        copied.reserve(words.len(), bytes)?;
        copied.push(name)?;
        for word in words.from_place(1) {
            copied.push(word)?;
        }
        Ok(Effect { words: copied })
    }

    /// A command of three words: this name, a key and a value.
    pub fn on_key(alloc: Global, name: &[u8], key: &[u8], value: &[u8]) -> Result<Effect, NoMemory>
        ensures words { IfOk result
            (λ effect. effect ≡ record { words = name.now ∷ key.now ∷ value.now ∷ [] }) }
    {
        let bytes = name
            .len()
            .saturating_add(key.len())
            .saturating_add(value.len());
        let mut words = Args::new(alloc);
        words.reserve(3, bytes)?;
        words.push(name)?;
        words.push(key)?;
        words.push(value)?;
        Ok(Effect { words })
    }
}

// The number of bytes of these words, to take memory for them.
fn size_of(words: Words<'_>) -> usize {
    let mut size: usize = 0;
    for word in words {
        size = size.saturating_add(word.len());
    }
    size
}

/// The changes of one event, in order.
pub type Effects = Sequence<Effect>;

/// A command that a module asks for when it is told a note.
#[derive(Debug, Drop)]
pub struct Chore {
    /// The number of the module that asks.
    pub place: u16,
    /// The words of the command.
    pub words: Args,
}

/// Chores in the order in which they are to be run.
pub type Chores = Sequence<Chore>;

impl Duplicate for Effect {
    fn duplicate(&self, alloc: Global) -> Result<Effect, NoMemory> {
        Ok(Effect {
            words: self.words.copy(alloc)?,
        })
    }
}

impl Duplicate for Chore {
    fn duplicate(&self, alloc: Global) -> Result<Chore, NoMemory> {
        Ok(Chore {
            place: self.place,
            words: self.words.copy(alloc)?,
        })
    }
}
