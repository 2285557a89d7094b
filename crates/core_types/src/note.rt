//! What modules are told of a change of the keys.

ghost use Rattle.std.specs.Prelude.{◌≡◌, ◌<◌, length, IfOk};
ghost use Rattle.core_types.specs.Done.{note_on_key};

use crate::{Args, Blob, Duplicate, NoMemory, Sequence};
use std::alloc::Global;

/// The class of an event of the keys, after the keyspace notifications of the Modules API.
#[derive(Clone, Copy, Debug, PartialEq, Eq)]
pub enum NoteClass {
    /// An event of any type, as `del`.
    Generic,
    /// An event of a string.
    String,
    /// An event of a list.
    List,
    /// An event of a hash.
    Hash,
    /// A key was removed at its deadline.
    Expired,
    /// An event of a module's own.
    Module,
}

/// An event of one key.
#[derive(Debug, Drop)]
pub struct Note {
    /// The class.
    pub class: NoteClass,
    /// The event's name, as `rpush`.
    pub name: Blob,
    /// The key.
    pub key: Blob,
}

impl Note {
    /// An event of the key that stands behind the command's name among these words.
    pub fn on_key(
        alloc: Global,
        class: NoteClass,
        name: &[u8],
        words: &Args,
    ) -> Result<Note, NoMemory>
        requires { 1 < length words.now }
        ensures note { IfOk result (λ note. note ≡ note_on_key class name.now words.now) }
    {
        Ok(Note {
            class,
            name: Blob::from_slice(alloc, name)?,
            key: Blob::from_slice(alloc, words.word(1))?,
        })
    }
}

/// Events in the order in which they came.
pub type Notes = Sequence<Note>;

impl Duplicate for Note {
    fn duplicate(&self, alloc: Global) -> Result<Note, NoMemory> {
        Ok(Note {
            class: self.class,
            name: self.name.copy(alloc)?,
            key: self.key.copy(alloc)?,
        })
    }
}
