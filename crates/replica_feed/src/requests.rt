//! The requests of a stream that comes in pieces, each with the place where it begins.

ghost use Rattle.std.specs.Prelude.{◌≡◌, ◌<◌, ◌≤◌, ◌+◌, ◌^◌, ◌++◌, ◌==◌, [], length, take, drop, position, IfOk, OnOk, OnErr};
ghost use Rattle.resp_codec.specs.Marks.{lf};
ghost use Rattle.resp_codec.specs.Stream.{SkipsOnly, IsUnfinished};
ghost use Rattle.replica_feed.specs.inner.Placing.{seen, Comes, IsPlaced, Looks, IsLineAhead};

use core_types::{Args, BadRequest, Blob, NoMemory};
use resp_codec::{Got, Reader};
use std::alloc::Global;

const LF: u8 = b'\n';

/// What the bytes fed so far hold next.
#[derive(Drop)]
pub(crate) enum Came {
    /// A request: the offset of its first byte in the whole stream, and its words.
    Request(u64, Args),
    /// No whole request yet; more bytes may complete one.
    More,
    /// No request, whatever comes after: the offset of the first byte of what is none, and why.
    Bad(u64, BadRequest),
}

/// A reader of requests that knows where each begins. It is fed a stream in pieces, and hands them
/// to a `Reader` line by line, the bytes up to and with one LF at a time. A request, and an empty
/// one, ends with an LF, so the `Reader` passes at most one of them at a time, and then all that it
/// has.
#[derive(Debug, Drop)]
pub(crate) struct Requests {
    reader: Reader,
    // How many bytes the reader was handed.
    handed: u64,
    // What was fed and not handed on, from a place on.
    waiting: Blob,
    place: usize,
}

impl Requests {
    /// Nothing came yet. Takes no memory.
    pub(crate) fn new(alloc: Global) -> Requests
        ensures placed { IsPlaced result }
        ensures passed { (seen result).passed ≡ 0 }
        ensures rest { (seen result).rest ≡ [] }
    {
        Requests {
            reader: Reader::new(alloc),
            handed: 0,
            waiting: Blob::new(alloc),
            place: 0,
        }
    }

    /// Adds the next piece of the stream.
    pub(crate) fn feed(&mut self, piece: &[u8]) -> Result<(), NoMemory>
        requires placed { IsPlaced self.old }
        requires room { (seen self.old).passed + length (seen self.old).rest + length piece.now
            < 2 ^ 64 }
        ensures placed { IsPlaced self.new }
        ensures passed { (seen self.new).passed ≡ (seen self.old).passed }
        ensures ok { OnOk result ((seen self.new).rest ≡ (seen self.old).rest ++ piece.now) }
        ensures err { OnErr result (seen self.new ≡ seen self.old) }
    {
        if self.place == self.waiting.len() {
            self.waiting.truncate(0);
            self.place = 0;
        }
        self.waiting.push_slice(piece)
    }

    /// The number of bytes after the last request that was passed.
    pub(crate) fn rest(&self) -> u64
        requires placed { IsPlaced self.now }
        ensures rest { result ≡ length (seen self.now).rest }
    {
        self.reader.rest() + (self.waiting.len() - self.place) as u64
    }

    /// Takes the next request. An empty one is passed over, and on an `Err` no more than that.
    pub(crate) fn next(&mut self) -> Result<Came, NoMemory>
        requires placed { IsPlaced self.old }
        ensures placed { IsPlaced self.new }
        ensures came { IfOk result (Comes (seen self.old) (seen self.new)) }
        ensures err { OnErr result (SkipsOnly (seen self.old) (seen self.new)) }
    {
        loop {
            if let Some(came) = self.look()? {
                return Ok(came);
            }
            if self.place == self.waiting.len() {
                return Ok(Came::More);
            }
            self.hand_on()?;
        }
    }

    // Takes what the reader has: a request, or a bad place, or neither.
    fn look(&mut self) -> Result<Option<Came>, NoMemory>
        requires placed { IsPlaced self.old }
        ensures placed { IsPlaced self.new }
        ensures looks { IfOk result (Looks self.old self.new) }
        ensures err { OnErr result (SkipsOnly (seen self.old) (seen self.new)) }
        ensures waiting { self.new.waiting ≡ self.old.waiting }
        ensures place { self.new.place ≡ self.old.place }
    {
        let begin = self.passed();
        match self.reader.next()? {
            Got::Request(words) => Ok(Some(Came::Request(begin, words))),
            Got::Bad(kind, _) => Ok(Some(Came::Bad(self.passed(), kind))),
            Got::More => Ok(None),
        }
    }

    // The number of bytes that the reader passed.
    fn passed(&self) -> u64
        requires handed { self.now.handed ≡ self.now.reader.passed + length self.now.reader.rest }
        ensures passed { result ≡ self.now.reader.passed }
    {
        self.handed - self.reader.rest()
    }

    // Hands the next line on to a reader that has no whole request, or all that there is of it.
    fn hand_on(&mut self) -> Result<(), NoMemory>
        requires placed { IsPlaced self.old }
        requires some { self.old.place < length self.old.waiting }
        requires unfinished { IsUnfinished self.old.reader.rest }
        ensures placed { IsPlaced self.new }
        ensures same { seen self.new ≡ seen self.old }
        ensures waiting { self.new.waiting ≡ self.old.waiting }
        ensures ok { OnOk result (self.old.place < self.new.place) }
        ensures err { OnErr result (self.new ≡ self.old) }
    {
        let waiting = behind(self.waiting.as_slice(), self.place);
        let size = line_size(waiting);
        self.reader.feed(front(waiting, size))?;
        self.handed += size as u64;
        self.place += size;
        Ok(())
    }
}

fn behind(bytes: &[u8], place: usize) -> &[u8]
    requires { place ≤ length bytes.now }
    ensures { result.now ≡ drop place bytes.now }
{
    &bytes[place..]
}

fn front(bytes: &[u8], size: usize) -> &[u8]
    requires { size ≤ length bytes.now }
    ensures { result.now ≡ take size bytes.now }
{
    &bytes[..size]
}

// The number of bytes of the first line, with its LF, or of all that there is of it.
fn line_size(bytes: &[u8]) -> usize
    requires some { 0 < length bytes.now }
    ensures some { 0 < result }
    ensures within { result ≤ length bytes.now }
    ensures line { IsLineAhead (take result bytes.now) }
{
    match first_lf(bytes) {
        Some(end) => end + 1,
        None => bytes.len(),
    }
}

fn first_lf(bytes: &[u8]) -> Option<usize>
    ensures { result ≡ position (λ byte. byte == lf) bytes.now }
{
    bytes.iter().position(|byte| *byte == LF)
}
