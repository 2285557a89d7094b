//! The bytes that were fed and not yet read.

ghost use Rattle.std.specs.Prelude.{◌≡◌, ◌≤◌, ◌++◌, List, ℕ, [], length, drop, take, slice_get, OnOk, OnErr};

use crate::header::{Header, judge};
use crate::line::{CR, LineEnd, find, line_end};
use bytes::BytesMut;
use core_types::NoMemory;
use std::alloc::Global;
use std::marker::Model;

// A block with more room than this is given back once no byte is left in it.
const MOST_ROOM: usize = 65_536;

/// Bytes that grow at their end and are read from their front.
#[derive(Debug, Drop)]
pub(crate) struct Input {
    bytes: BytesMut,
    // Which byte is looked for, and among how many at the front it was and was not there.
    sought: u8,
    searched: usize,
}

impl Model for Input {
    ghost use Rattle.std.specs.Prelude.{List, ℕ};
    ghost use Rattle.resp_codec.specs.inner.Line.{IsSearched};

    ghost Value = { List ℕ };

    ghost view = { λ i. i.bytes.items };

    ghost invariant = { λ i. IsSearched i.sought i.searched i.bytes.items };
}

impl Input {
    ghost use Rattle.resp_codec.specs.inner.Header.{Judges};
    ghost use Rattle.resp_codec.specs.inner.Line.{IsFound, IsSearchEnd};

    /// No bytes. Takes no memory.
    pub(crate) fn new(alloc: Global) -> Input
        ensures empty { result ≡ [] }
    {
        Input {
            bytes: BytesMut::new(alloc),
            sought: CR,
            searched: 0,
        }
    }

    /// Adds bytes at the end.
    pub(crate) fn feed(&mut self, piece: &[u8]) -> Result<(), NoMemory>
        ensures ok { OnOk result (self.new ≡ self.old ++ piece.now) }
        ensures err { OnErr result (self.new ≡ self.old) }
    {
        self.bytes.extend_from_slice(piece)?;
        Ok(())
    }

    /// The number of bytes.
    pub(crate) fn len(&self) -> usize
        ensures length { result ≡ length self.now }
    {
        self.bytes.len()
    }

    /// The first byte.
    pub(crate) fn first(&self) -> Option<u8>
        ensures first { result ≡ slice_get self.now 0 }
    {
        self.bytes.as_slice().first().copied()
    }

    /// This many of the first bytes.
    pub(crate) fn front(&self, count: usize) -> &[u8]
        requires { count ≤ length self.now }
        ensures front { result.now ≡ take count self.now }
    {
        &self.bytes.as_slice()[..count]
    }

    /// Drops this many of the first bytes.
    pub(crate) fn skip(&mut self, count: usize)
        requires { count ≤ length self.old }
        ensures rest { self.new ≡ drop count self.old }
    {
        self.bytes.advance(count);
        self.searched = 0;
        if self.bytes.is_empty() {
            self.give_back();
        }
    }

    // Keeps the room for the next bytes, unless it is much.
    fn give_back(&mut self)
        requires { self.old ≡ [] }
        ensures empty { self.new ≡ [] }
    {
        self.bytes.clear();
        if self.bytes.capacity() > MOST_ROOM {
            self.bytes = BytesMut::new(*self.bytes.allocator());
        }
    }

    /// How many bytes stand before the first such byte, or as many as it was looked for among.
    pub(crate) fn find(&mut self, sought: u8) -> usize
        ensures same { self.new ≡ self.old }
        ensures end { IsSearchEnd sought result self.old }
    {
        let searched = if self.sought == sought {
            self.searched
        } else {
            0
        };
        let end = find(self.bytes.as_slice(), searched, sought);
        self.sought = sought;
        self.searched = end;
        end
    }

    /// What stands at a place where CR LF is due.
    pub(crate) fn line_end(&self, place: usize) -> LineEnd
        ensures found { IsFound self.now place result }
    {
        line_end(self.bytes.as_slice(), place)
    }

    /// What stands at the front, where a header is due.
    pub(crate) fn header(&mut self) -> Header
        ensures same { self.new ≡ self.old }
        ensures judged { Judges self.old result }
    {
        let end = self.find(CR);
        judge(self.bytes.as_slice(), end)
    }
}
