//! The words of a request that is being read.

ghost use Rattle.std.specs.Prelude.{◌≡◌, ◌+◌, ◌≤◌, ◌++◌, [], ◌∷◌, length, OnOk, OnErr};

use crate::packed::Packed;
use crate::{Args, NoMemory};
use std::alloc::Global;
use std::marker::Model;
use std::mem;

/// The words of a request that are whole, and what came of the next one.
#[derive(Debug, Drop)]
pub struct Draft {
    packed: Packed,
}

impl Model for Draft {
    ghost use Rattle.sequences.specs.Drafts.{DraftWords};

    ghost Value = { DraftWords };

    ghost view = { λ d. d.packed };
}

impl Draft {
    /// Nothing came yet. Takes no memory.
    pub fn new(alloc: Global) -> Draft
        ensures empty { result ≡ record { words = []; tail = [] } }
    {
        Draft {
            packed: Packed::new(alloc),
        }
    }

    /// The number of words that are whole.
    pub fn len(&self) -> usize
        ensures length { result ≡ length self.now.words }
    {
        self.packed.len()
    }

    /// The number of bytes that came of the next word.
    pub fn tail_len(&self) -> usize
        ensures length { result ≡ length self.now.tail }
    {
        self.packed.tail_len()
    }

    /// Adds bytes of the next word, which has `size` in all. Room for the whole word is taken once.
    pub fn add(&mut self, bytes: &[u8], size: usize) -> Result<(), NoMemory>
        requires { length self.old.tail + length bytes.now ≤ size }
        ensures ok { OnOk result
            (self.new ≡ record self.old { tail = self.old.tail ++ bytes.now }) }
        ensures err { OnErr result (self.new ≡ self.old) }
    {
        self.packed.add(bytes, size)
    }

    /// Takes memory for this number of words more, of this number of bytes in all, so that adding
    /// them takes none.
    pub fn reserve(&mut self, words: usize, bytes: usize) -> Result<(), NoMemory>
        ensures same { self.new ≡ self.old }
    {
        self.packed.reserve(words, bytes)
    }

    /// Ends the next word: what came of it is whole.
    pub fn end_word(&mut self) -> Result<(), NoMemory>
        ensures ok { OnOk result
            (self.new ≡ record { words = self.old.words ++ self.old.tail ∷ []; tail = [] }) }
        ensures err { OnErr result (self.new ≡ self.old) }
    {
        self.packed.end_word()
    }

    /// The words, where nothing came of a next one; nothing is left. Takes no memory.
    pub fn take(&mut self) -> Args
        requires { self.old.tail ≡ [] }
        ensures words { result ≡ self.old.words }
        ensures left { self.new ≡ record { words = []; tail = [] } }
    {
        let none = Packed::new(self.packed.allocator());
        Args::from_packed(mem::replace(&mut self.packed, none))
    }
}
