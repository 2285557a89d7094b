//! Words one behind the other in one buffer, and where each of them ends in another.

ghost use Rattle.std.specs.Prelude.{◌≡◌, ◌+◌, ◌<◌, ◌≤◌, ◌^◌, ◌++◌, [], ◌∷◌, length, take, slice_range, IfOk, OnOk, OnErr};
ghost use Rattle.std.specs.Vec.{vec_len, vec_capacity};
ghost use Rattle.sequences.specs.Words.{word};
ghost use Rattle.sequences.specs.inner.Packing.{last_end};

use crate::NoMemory;
use std::alloc::Global;
use std::marker::Model;

// From this many bytes on, a buffer grows by an eighth, and not by as much again.
const LARGE: usize = 65_536;

/// The words that are whole, and behind them what came of the next one.
#[derive(Debug, Drop)]
pub struct Packed {
    bytes: Vec<u8>,
    ends: Vec<usize>,
}

impl Model for Packed {
    ghost use Rattle.std.specs.Prelude.{length};
    ghost use Rattle.sequences.specs.Drafts.{DraftWords};

    ghost Value = { DraftWords };

    ghost use Rattle.sequences.specs.inner.Packing.{cut_at, Rises};

    ghost view = { λ p. cut_at p.bytes.items p.ends.items };

    ghost invariant = { λ p. Rises 0 (length p.bytes.items) p.ends.items };
}

impl Packed {
    /// No word, and nothing of a next one. Takes no memory.
    pub fn new(alloc: Global) -> Packed
        ensures empty { result ≡ record { words = []; tail = [] } }
    {
        Packed {
            bytes: Vec::new(alloc),
            ends: Vec::new(alloc),
        }
    }

    /// What it takes memory from.
    pub fn allocator(&self) -> Global {
        *self.bytes.allocator()
    }

    /// The number of words.
    pub fn len(&self) -> usize
        ensures length { result ≡ length self.now.words }
        ensures small { result < 2 ^ 63 }
    {
        self.ends.len()
    }

    /// The number of bytes behind the last word.
    pub fn tail_len(&self) -> usize
        ensures length { result ≡ length self.now.tail }
    {
        self.bytes.len() - start_of(&self.ends, self.ends.len())
    }

    /// The word at a place, counted from 0.
    pub fn word(&self, place: usize) -> &[u8]
        requires { place < length self.now.words }
        ensures word { result.now ≡ word place self.now.words }
    {
        let start = start_of(&self.ends, place);
        let end = self.ends[place];
        part(&self.bytes, start, end)
    }

    /// Adds bytes behind the last word, of which `size` will come in all.
    pub fn add(&mut self, bytes: &[u8], size: usize) -> Result<(), NoMemory>
        requires { length self.old.tail + length bytes.now ≤ size }
        ensures ok { OnOk result
            (self.new ≡ record self.old { tail = self.old.tail ++ bytes.now }) }
        ensures err { OnErr result (self.new ≡ self.old) }
    {
        let left = size - self.tail_len();
        make_room(&mut self.bytes, left)?;
        self.bytes.extend_from_slice(bytes)?;
        Ok(())
    }

    /// Makes a word of what stands behind the last one.
    pub fn end_word(&mut self) -> Result<(), NoMemory>
        ensures ok { OnOk result
            (self.new ≡ record { words = self.old.words ++ self.old.tail ∷ []; tail = [] }) }
        ensures err { OnErr result (self.new ≡ self.old) }
    {
        self.ends.push(self.bytes.len())?;
        Ok(())
    }

    /// Adds a word where nothing stands behind the last one.
    pub fn push(&mut self, word: &[u8]) -> Result<(), NoMemory>
        requires { self.old.tail ≡ [] }
        ensures ok { OnOk result
            (self.new ≡ record { words = self.old.words ++ word.now ∷ []; tail = [] }) }
        ensures err { OnErr result (self.new ≡ self.old) }
    {
        self.ends.reserve(1)?;
        make_room(&mut self.bytes, word.len())?;
        self.bytes.extend_from_slice(word)?;
        self.ends.push_reserved(self.bytes.len());
        Ok(())
    }

    /// Takes memory for this number of words more, of this number of bytes in all.
    pub fn reserve(&mut self, words: usize, bytes: usize) -> Result<(), NoMemory>
        ensures same { self.new ≡ self.old }
    {
        self.ends.reserve(words)?;
        make_room(&mut self.bytes, bytes)
    }

    /// A second one, in two blocks of just its size.
    pub fn copy(&self, alloc: Global) -> Result<Packed, NoMemory>
        ensures same { IfOk result (λ packed. packed ≡ self.now) }
    {
        Ok(Packed {
            bytes: Vec::from_slice(alloc, &self.bytes)?,
            ends: Vec::from_slice(alloc, &self.ends)?,
        })
    }
}

// Where the word at this place begins: where the one before it ends.
fn start_of(ends: &[usize], place: usize) -> usize
    requires { place ≤ length ends.now }
    ensures start { result ≡ last_end 0 (take place ends.now) }
{
    if place == 0 { 0 } else { ends[place - 1] }
}

// The bytes from `start` on and before `end`.
fn part(bytes: &[u8], start: usize, end: usize) -> &[u8]
    requires order { start ≤ end }
    requires within { end ≤ length bytes.now }
    ensures part { result.now ≡ slice_range bytes.now start end }
{
    &bytes[start..end]
}

// Takes memory for this number of bytes more. What is large grows by an eighth at least, so that
// bytes which come in pieces are moved a few times at most.
fn make_room(bytes: &mut Vec<u8>, more: usize) -> Result<(), NoMemory>
    ensures same { bytes.new.items ≡ bytes.old.items }
    ensures room { OnOk result (vec_len bytes.new + more ≤ vec_capacity bytes.new) }
{
    let size = bytes.len();
    if size < LARGE && more < LARGE {
        bytes.reserve(more)?;
    } else if more > bytes.capacity() - size {
        bytes.reserve_exact(more.max(size / 8))?;
    }
    Ok(())
}
