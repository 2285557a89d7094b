//! Frames out of a stream that comes in pieces.

ghost use Rattle.std.specs.Prelude.{◌≡◌, ◌<◌, ◌+◌, ◌^◌, ◌++◌, ℕ, [], length, None, Some, Ok, OnOk, OnErr};
ghost use Rattle.replica_feed.specs.declared.frame.Frame.{Frame};
ghost use Rattle.replica_feed.specs.declared.fault.FrameFault.{FrameFault};
ghost use Rattle.replica_feed.specs.Words.{AreFrame};
ghost use Rattle.replica_feed.specs.Reading.{TakesFrame, WaitsFor, EndsAt, LeavesOff, IsFaultOf};

use crate::fault::FrameFault;
use crate::frame::Frame;
use crate::requests::{Came, Requests};
use crate::words::{Judged, judge};
use core_types::{Args, NoMemory};
use std::alloc::Global;
use std::marker::Model;

/// What the bytes fed so far hold next.
#[derive(Debug, Drop)]
pub enum NextFrame {
    /// A frame, and the offset of its first byte in the whole stream.
    Frame(u64, Frame),
    /// No whole frame yet; more bytes may complete one.
    More,
    /// No frame, whatever comes after: the offset of the first byte of what is none, and why.
    /// Every later `next` says the same.
    Bad(u64, FrameFault),
}

/// A reader of frames, which is fed a stream in pieces.
#[derive(Debug, Drop)]
pub struct FrameReader {
    alloc: Global,
    requests: Requests,
    // A request that was passed while memory ran out, and where it begins.
    held: Option<(u64, Args)>,
    bad: Option<(u64, FrameFault)>,
}

impl Model for FrameReader {
    ghost use Rattle.replica_feed.specs.Reading.{Feed};
    ghost use Rattle.replica_feed.specs.inner.Placing.{seen, IsPlaced};

    ghost Value = { Feed };

    ghost view = { λ r. record { stream = seen r.requests; held = r.held; bad = r.bad } };

    ghost invariant = { λ r. IsPlaced r.requests };
}

impl FrameReader {
    /// A reader that was fed nothing. Takes no memory.
    pub fn new(alloc: Global) -> FrameReader
        ensures passed { result.stream.passed ≡ 0 }
        ensures rest { result.stream.rest ≡ [] }
        ensures held { result.held ≡ None }
        ensures bad { result.bad ≡ None }
    {
        FrameReader {
            alloc,
            requests: Requests::new(alloc),
            held: None,
            bad: None,
        }
    }

    /// Takes the next piece of the stream. An `Err` changes nothing.
    pub fn feed(&mut self, piece: &[u8]) -> Result<(), NoMemory>
        requires { self.old.stream.passed + length self.old.stream.rest
            + length piece.now < 2 ^ 64 }
        ensures passed { self.new.stream.passed ≡ self.old.stream.passed }
        ensures held { self.new.held ≡ self.old.held }
        ensures bad { self.new.bad ≡ self.old.bad }
        ensures ok { OnOk result
            (self.new.stream.rest ≡ self.old.stream.rest ++ piece.now) }
        ensures err { OnErr result (self.new ≡ self.old) }
    {
        self.requests.feed(piece)
    }

    /// Takes the next frame. An empty request is passed over. After an `Err` the next call goes on
    /// where this one left off.
    pub fn next(&mut self) -> Result<NextFrame, NoMemory>
        ensures frame { (offset : ℕ) (f : Frame) → result ≡ Ok (NextFrame.Frame offset f)
            → TakesFrame self.old self.new offset f }
        ensures more { result ≡ Ok NextFrame.More → WaitsFor self.old self.new }
        ensures bad { (offset : ℕ) (why : FrameFault) → result ≡ Ok (NextFrame.Bad offset why)
            → EndsAt self.old.bad self.old self.new offset why }
        ensures err { OnErr result (LeavesOff self.old self.new) }
    {
        if let Some((offset, why)) = self.bad {
            return Ok(NextFrame::Bad(offset, why));
        }
        if let Some((begin, words)) = self.held.take() {
            return self.tell(begin, words);
        }
        match self.requests.next()? {
            Came::Request(begin, words) => self.tell(begin, words),
            Came::More => Ok(NextFrame::More),
            Came::Bad(begin, kind) => Ok(self.refuse(begin, FrameFault::Request(kind))),
        }
    }

    /// The number of bytes after the last request that was passed.
    pub fn rest(&self) -> u64
        ensures rest { result ≡ length self.now.stream.rest }
    {
        self.requests.rest()
    }

    // Tells what these words are, which begin at a place, and holds them for want of memory.
    fn tell(&mut self, begin: u64, words: Args) -> Result<NextFrame, NoMemory>
        ensures frame { (offset : ℕ) (f : Frame) → result ≡ Ok (NextFrame.Frame offset f)
            → (offset ≡ begin) × AreFrame words f × (self.new ≡ self.old) }
        ensures more { ¬ (result ≡ Ok NextFrame.More) }
        ensures bad { (offset : ℕ) (why : FrameFault) → result ≡ Ok (NextFrame.Bad offset why)
            → (offset ≡ begin) × IsFaultOf words why
            × (self.new ≡ record self.old { bad = Some (begin, why) }) }
        ensures err { OnErr result (self.new ≡ record self.old { held = Some (begin, words) }) }
    {
        match judge(self.alloc, &words) {
            Ok(Judged::Frame(frame)) => Ok(NextFrame::Frame(begin, frame)),
            Ok(Judged::Bad(why)) => Ok(self.refuse(begin, why)),
            Err(NoMemory) => {
                self.held = Some((begin, words));
                Err(NoMemory)
            }
        }
    }

    fn refuse(&mut self, begin: u64, why: FrameFault) -> NextFrame
        ensures told { result ≡ NextFrame.Bad begin why }
        ensures bad { self.new ≡ record self.old { bad = Some (begin, why) } }
    {
        self.bad = Some((begin, why));
        NextFrame::Bad(begin, why)
    }
}
