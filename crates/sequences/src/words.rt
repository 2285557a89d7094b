//! The words of requests, packed: the bytes of all words stand in one buffer, and where each ends
//! in another.

ghost use Rattle.std.specs.Prelude.{◌≡◌, ◌==◌, ◌<◌, ◌^◌, ◌++◌, List, ℕ, [], ◌∷◌, length, slice_get, drop, IfOk, OnOk, OnErr};
ghost use Rattle.std.specs.Option.{option_map};
ghost use Rattle.sequences.specs.Words.{word};

use crate::packed::Packed;
use crate::{Duplicate, NoMemory, Sequence, Words};
use std::alloc::Global;
use std::marker::Model;

/// The words of one request: the name of a command and its arguments.
#[derive(Debug, Drop)]
pub struct Args {
    packed: Packed,
}

/// The words of commands, in order.
pub type Commands = Sequence<Args>;

impl Model for Args {
    ghost Value = { List (List ℕ) };

    ghost view = { λ a. a.packed.words };

    ghost invariant = { λ a. a.packed.tail ≡ [] };
}

impl Args {
    // The words that are packed, where nothing stands behind the last of them.
    pub(crate) fn from_packed(packed: Packed) -> Args
        requires { packed.tail ≡ [] }
        ensures words { result ≡ packed.words }
    {
        Args { packed }
    }

    /// No words. Takes no memory.
    pub fn new(alloc: Global) -> Args
        ensures empty { result ≡ [] }
    {
        Args {
            packed: Packed::new(alloc),
        }
    }

    /// The number of words.
    pub fn len(&self) -> usize
        ensures length { result ≡ length self.now }
        ensures small { result < 2 ^ 63 }
    {
        self.packed.len()
    }

    /// Whether there is no word.
    pub fn is_empty(&self) -> bool
        ensures empty { result ≡ (length self.now == 0) }
    {
        self.packed.len() == 0
    }

    /// The word at a place, counted from 0.
    pub fn word(&self, place: usize) -> &[u8]
        requires { place < length self.now }
        ensures word { result.now ≡ word place self.now }
    {
        self.packed.word(place)
    }

    /// The word at a place, counted from 0, or `None` past the end.
    pub fn get(&self, place: usize) -> Option<&[u8]>
        ensures at { option_map (λ word. word.now) result ≡ slice_get self.now place }
    {
        if place < self.packed.len() {
            Some(self.packed.word(place))
        } else {
            None
        }
    }

    /// The words from a place on, counted from 0, one after the other.
    pub fn from_place(&self, place: usize) -> Words<'_>
        ensures words { result ≡ drop place self.now }
    {
        Words::new(self, place)
    }

    /// Adds one word at the end.
    pub fn push(&mut self, word: &[u8]) -> Result<(), NoMemory>
        ensures ok { OnOk result (self.new ≡ self.old ++ word.now ∷ []) }
        ensures err { OnErr result (self.new ≡ self.old) }
    {
        self.packed.push(word)
    }

    /// Takes memory for this number of words more, of this number of bytes in all, so that adding
    /// them takes none.
    pub fn reserve(&mut self, words: usize, bytes: usize) -> Result<(), NoMemory>
        ensures same { self.new ≡ self.old }
    {
        self.packed.reserve(words, bytes)
    }

    /// A second list of the same words, in two blocks of just their size.
    pub fn copy(&self, alloc: Global) -> Result<Args, NoMemory>
        ensures same { IfOk result (λ words. words ≡ self.now) }
    {
        Ok(Args {
            packed: self.packed.copy(alloc)?,
        })
    }
}

impl Duplicate for Args {
    fn duplicate(&self, alloc: Global) -> Result<Args, NoMemory> {
        self.copy(alloc)
    }
}
