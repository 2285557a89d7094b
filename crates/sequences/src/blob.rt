//! A byte string of any bytes, seen as its list of bytes.

ghost use Rattle.std.specs.Prelude.{◌≡◌, ◌==◌, ◌+◌, ◌-◌, ◌≤◌, ◌++◌, List, ℕ, [], ◌∷◌, length, slice_get, take, drop, replicate, IfOk, OnOk, OnErr};

use crate::NoMemory;
use std::alloc::Global;
use std::marker::Model;

// From this many bytes on, memory is taken for what is asked, and not for as much again.
const LARGE: usize = 65_536;

/// A byte string: a key, a value, a word of a request or a text to be sent.
#[derive(Debug, Drop)]
pub struct Blob {
    bytes: Vec<u8>,
}

impl Model for Blob {
    ghost Value = { List ℕ };

    ghost view = { λ b. b.bytes.items };
}

impl Blob {
    /// The empty byte string. Takes no memory.
    pub fn new(alloc: Global) -> Blob
        ensures empty { result ≡ [] }
    {
        Blob {
            bytes: Vec::new(alloc),
        }
    }

    /// A copy of the bytes.
    pub fn from_slice(alloc: Global, bytes: &[u8]) -> Result<Blob, NoMemory>
        ensures bytes { IfOk result (λ blob. blob ≡ bytes.now) }
    {
        Ok(Blob {
            bytes: Vec::from_slice(alloc, bytes)?,
        })
    }

    /// The bytes of the vector, without a copy.
    pub fn from_vec(bytes: Vec<u8>) -> Blob
        ensures bytes { result ≡ bytes.items }
    {
        Blob { bytes }
    }

    /// The bytes as a vector, without a copy.
    pub fn into_vec(self) -> Vec<u8>
        ensures bytes { result.items ≡ self }
    {
        let Blob { bytes } = self;
        bytes
    }

    /// A second byte string with the same bytes.
    pub fn copy(&self, alloc: Global) -> Result<Blob, NoMemory>
        ensures same { IfOk result (λ blob. blob ≡ self.now) }
    {
        Blob::from_slice(alloc, &self.bytes)
    }

    /// The number of bytes.
    pub fn len(&self) -> usize
        ensures length { result ≡ length self.now }
    {
        self.bytes.len()
    }

    /// Whether there is no byte.
    pub fn is_empty(&self) -> bool
        ensures empty { result ≡ (length self.now == 0) }
    {
        self.bytes.is_empty()
    }

    /// The byte at a place, counted from 0, or `None` past the end.
    pub fn get(&self, place: usize) -> Option<u8>
        ensures at { result ≡ slice_get self.now place }
    {
        self.bytes.get(place).copied()
    }

    /// The bytes.
    pub fn as_slice(&self) -> &[u8]
        ensures bytes { result.now ≡ self.now }
    {
        &self.bytes
    }

    /// Adds one byte at the end.
    pub fn push(&mut self, byte: u8) -> Result<(), NoMemory>
        ensures ok { OnOk result (self.new ≡ self.old ++ byte ∷ []) }
        ensures err { OnErr result (self.new ≡ self.old) }
    {
        self.bytes.push(byte)?;
        Ok(())
    }

    /// Adds bytes at the end.
    pub fn push_slice(&mut self, bytes: &[u8]) -> Result<(), NoMemory>
        ensures ok { OnOk result (self.new ≡ self.old ++ bytes.now) }
        ensures err { OnErr result (self.new ≡ self.old) }
    {
        self.bytes.extend_from_slice(bytes)?;
        Ok(())
    }

    /// Takes memory for this number of bytes more, so that adding them takes none. What is longer
    /// than 64 KiB gets just what it needs. No clause speaks of the room: contracts see a `Blob` as
    /// its list of bytes alone, and room is no part of that.
    pub fn reserve(&mut self, more: usize) -> Result<(), NoMemory>
        ensures same { self.new ≡ self.old }
    {
        if more > LARGE {
            self.bytes.reserve_exact(more)?;
        } else {
            self.bytes.reserve(more)?;
        }
        Ok(())
    }

    /// Adds zero bytes at the end, up to this length. What is that long already stays.
    pub fn grow(&mut self, size: usize) -> Result<(), NoMemory>
        ensures ok { OnOk result (self.new ≡ self.old ++ replicate (size - length self.old) 0) }
        ensures err { OnErr result (self.new ≡ self.old) }
    {
        if size > self.bytes.len() {
            self.bytes.resize(size, 0)?;
        }
        Ok(())
    }

    /// Writes bytes over those that stand from `place` on. Takes no memory.
    pub fn overwrite(&mut self, place: usize, bytes: &[u8])
        requires { place + length bytes.now ≤ length self.old }
        ensures written { self.new
            ≡ take place self.old ++ bytes.now ++ drop (place + length bytes.now) self.old }
    {
        write_over(&mut self.bytes, place, bytes);
    }

    /// Takes these bytes in place of its own.
    pub fn assign(&mut self, bytes: &[u8]) -> Result<(), NoMemory>
        ensures ok { OnOk result (self.new ≡ bytes.now) }
        ensures err { OnErr result (self.new ≡ self.old) }
    {
        self.bytes
            .reserve(bytes.len().saturating_sub(self.bytes.len()))?;
        self.bytes.clear();
        self.bytes.extend_from_slice(bytes)?;
        Ok(())
    }

    /// Drops what stands from `length` on. Keeps its memory for later use.
    pub fn truncate(&mut self, length: usize)
        ensures front { self.new ≡ take length self.old }
    {
        self.bytes.truncate(length);
    }
}

// Writes bytes over those that stand from `place` on.
fn write_over(bytes: &mut [u8], place: usize, piece: &[u8])
    requires { place + length piece.now ≤ length bytes.old }
    ensures { bytes.new
        ≡ take place bytes.old ++ piece.now ++ drop (place + length piece.now) bytes.old }
{
    let whole = bytes.len();
    prove!(place <= whole);
    let end = place + piece.len();
    bytes[place..end].copy_from_slice(piece);
}
