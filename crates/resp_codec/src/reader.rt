//! Requests out of a stream that comes in pieces.

ghost use Rattle.std.specs.Prelude.{◌≡◌, ◌<◌, ◌+◌, ◌^◌, ◌++◌, ℕ, List, [], length, Ok, OnOk, OnErr};
ghost use Rattle.resp_codec.specs.Stream.{Takes, Waits, Refuses, SkipsOnly};
ghost use Rattle.core_types.specs.declared.bad_request.BadRequest.{BadRequest};

use crate::reading::Reading;
use core_types::{Args, BadRequest, NoMemory};
use std::alloc::Global;
use std::marker::Model;

/// What the bytes fed so far hold next.
#[derive(Debug, Drop)]
pub enum Got {
    /// A whole request: its words.
    Request(Args),
    /// No whole request yet; more bytes may complete one.
    More,
    /// No request, whatever comes after: why, and the offset of the bad byte in the whole stream.
    /// Every later `next` says the same.
    Bad(BadRequest, u64),
}

/// A reader of requests, which is fed a stream in pieces.
#[derive(Debug, Drop)]
pub struct Reader {
    reading: Reading,
}

impl Model for Reader {
    ghost use Rattle.resp_codec.specs.Stream.{Stream};
    ghost use Rattle.resp_codec.specs.inner.Reading.{seen};

    ghost Value = { Stream };

    ghost view = { λ r. seen r.reading };
}

impl Reader {
    /// A reader that was fed nothing. Takes no memory.
    pub fn new(alloc: Global) -> Reader
        ensures passed { result.passed ≡ 0 }
        ensures rest { result.rest ≡ [] }
    {
        Reader {
            reading: Reading::new(alloc),
        }
    }

    /// Takes the next piece of the stream. An `Err` changes nothing.
    pub fn feed(&mut self, piece: &[u8]) -> Result<(), NoMemory>
        requires { self.old.passed + length self.old.rest + length piece.now < 2 ^ 64 }
        ensures passed { self.new.passed ≡ self.old.passed }
        ensures ok { OnOk result (self.new.rest ≡ self.old.rest ++ piece.now) }
        ensures err { OnErr result (self.new ≡ self.old) }
    {
        self.reading.feed(piece)
    }

    /// Takes the next whole request. An empty request, an array or a line without words, is
    /// passed over, and on an `Err` no more than that.
    pub fn next(&mut self) -> Result<Got, NoMemory>
        ensures request { (words : List (List ℕ)) → result ≡ Ok (Got.Request words)
            → Takes self.old self.new words }
        ensures more { result ≡ Ok Got.More → Waits self.old self.new }
        ensures bad { (kind : BadRequest) (offset : ℕ) → result ≡ Ok (Got.Bad kind offset)
            → Refuses self.old self.new kind offset }
        ensures err { OnErr result (SkipsOnly self.old self.new) }
    {
        self.reading.next()
    }

    /// The number of bytes after the last request that was passed.
    pub fn rest(&self) -> u64
        ensures rest { result ≡ length self.now.rest }
    {
        self.reading.rest()
    }
}
