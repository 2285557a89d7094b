//! One request after the other, by steps.

ghost use Rattle.std.specs.Prelude.{◌≡◌, ◌<◌, ◌≤◌, ◌+◌, ◌^◌, ◌++◌, ℕ, List, [], length, slice_get, Some, false, Ok, OnOk, OnErr, IfOk};
ghost use Rattle.resp_codec.specs.Marks.{star, dollar};
ghost use Rattle.resp_codec.specs.Inline.{begins_array};
ghost use Rattle.resp_codec.specs.Faults.{BadAt};
ghost use Rattle.resp_codec.specs.Stream.{Takes, Waits, Refuses, SkipsOnly};
ghost use Rattle.resp_codec.specs.inner.Underway.{begun, IsDue, IsDue-prop};
ghost use Rattle.core_types.specs.declared.bad_request.BadRequest.{BadRequest};

use crate::ahead::ahead;
use crate::header::Header;
use crate::inline::{first_quote, line_words};
use crate::input::Input;
use crate::line::{FARTHEST, LF, LineEnd};
use crate::number::{read_count, read_length};
use crate::reader::Got;
use core_types::{Args, BadRequest, Draft, NoMemory};
use std::alloc::Global;

/// What is due next.
#[derive(Debug, Drop)]
pub(crate) enum Stage {
    /// A request.
    Request,
    /// The header of a word.
    Length,
    /// This many bytes of a word, and CR LF.
    Word(usize),
}

/// What a step came to.
#[derive(Drop)]
pub(crate) enum Step {
    /// A part of a request was read, or an empty request, which is skipped.
    Onward,
    /// A request ended: its words.
    Took(Args),
    /// The next part is not whole yet.
    Wait,
    /// No request stands here, whatever comes after: why, and the offset in the whole stream.
    Bad(BadRequest, u64),
}

/// A stream up to the last byte that came: what was passed, what was read of the next request, and
/// the rest.
#[derive(Debug, Drop)]
pub(crate) struct Reading {
    alloc: Global,
    // The bytes of the requests that were passed.
    passed: u64,
    // The bytes that were read of the next request.
    read: u64,
    stage: Stage,
    // How many words the next request has, those that were read, and what came of the next.
    count: usize,
    draft: Draft,
    input: Input,
    ghost due: { IsDue stage count draft.words draft.tail } by { IsDue-prop stage count draft.words draft.tail },
    ghost read_is: { read ≡ length (begun stage count draft.words) },
    ghost small: { passed + read + length draft.tail + length input < 2 ^ 64 },
}

impl Reading {
    ghost use Rattle.resp_codec.specs.inner.Reading.{seen, Steps, IsGathered};
    ghost use Rattle.resp_codec.specs.inner.Line.{IsFound, IsInlineLine};
    ghost use Rattle.resp_codec.specs.inner.Header.{IsHeaderLine};

    /// Nothing came yet.
    pub(crate) fn new(alloc: Global) -> Reading
        ensures passed { (seen result).passed ≡ 0 }
        ensures rest { (seen result).rest ≡ [] }
    {
        Reading {
            alloc,
            passed: 0,
            read: 0,
            stage: Stage::Request,
            count: 0,
            draft: Draft::new(alloc),
            input: Input::new(alloc),
        }
    }

    /// Adds the next piece of the stream.
    pub(crate) fn feed(&mut self, piece: &[u8]) -> Result<(), NoMemory>
        requires { (seen self.old).passed + length
            (seen self.old).rest + length piece.now < 2 ^ 64 }
        ensures passed { (seen self.new).passed ≡ (seen self.old).passed }
        ensures ok { OnOk result ((seen self.new).rest ≡ (seen self.old).rest ++ piece.now) }
        ensures err { OnErr result (seen self.new ≡ seen self.old) }
    {
        self.input.feed(piece)
    }

    /// The number of bytes after the last request that was passed.
    pub(crate) fn rest(&self) -> u64
        ensures rest { result ≡ length (seen self.now).rest }
    {
        self.read + self.draft.tail_len() as u64 + self.input.len() as u64
    }

    /// Takes the next request.
    pub(crate) fn next(&mut self) -> Result<Got, NoMemory>
        ensures request { (words : List (List ℕ)) → result ≡ Ok (Got.Request words)
            → Takes (seen self.old) (seen self.new) words }
        ensures more { result ≡ Ok Got.More → Waits (seen self.old) (seen self.new) }
        ensures bad { (kind : BadRequest) (offset : ℕ) → result ≡ Ok (Got.Bad kind offset)
            → Refuses (seen self.old) (seen self.new) kind offset }
        ensures err { OnErr result (SkipsOnly (seen self.old) (seen self.new)) }
    {
        loop {
            match self.step()? {
                Step::Onward => {}
                Step::Took(words) => return Ok(Got::Request(words)),
                Step::Wait => return Ok(Got::More),
                Step::Bad(kind, offset) => return Ok(Got::Bad(kind, offset)),
            }
        }
    }

    // Reads the part that is due.
    fn step(&mut self) -> Result<Step, NoMemory>
        ensures ok { IfOk result (Steps self.old self.new) }
        ensures err { OnErr result (seen self.new ≡ seen self.old) }
    {
        match self.stage {
            Stage::Request => self.read_request(),
            Stage::Length => Ok(self.read_length()),
            Stage::Word(length) => self.read_word(length),
        }
    }

    fn read_request(&mut self) -> Result<Step, NoMemory>
        requires { self.old.stage ≡ Stage.Request }
        ensures ok { IfOk result (Steps self.old self.new) }
        ensures err { OnErr result (seen self.new ≡ seen self.old) }
    {
        match self.input.first() {
            None => Ok(Step::Wait),
            Some(b'*') => Ok(self.read_count()),
            Some(_) => self.read_line(),
        }
    }

    fn read_count(&mut self) -> Step
        requires stage { self.old.stage ≡ Stage.Request }
        requires mark { slice_get self.old.input 0 ≡ Some star }
        ensures { Steps self.old self.new result }
    {
        match self.input.header() {
            Header::Open => Step::Wait,
            Header::Bad(kind, place) => self.refuse(kind, place),
            Header::Line(end) => self.take_count(end),
        }
    }

    fn take_count(&mut self, end: usize) -> Step
        requires stage { self.old.stage ≡ Stage.Request }
        requires mark { slice_get self.old.input 0 ≡ Some star }
        requires line { IsHeaderLine self.old.input end }
        ensures { Steps self.old self.new result }
    {
        let Some(count) = read_count(&self.input.front(end)[1..]) else {
            return self.refuse(BadRequest::MultibulkLength, 0);
        };
        self.input.skip(end + 2);
        if count == 0 {
            self.passed += end as u64 + 2;
            return Step::Onward;
        }
        self.read = end as u64 + 2;
        self.count = count as usize;
        self.stage = Stage::Length;
        Step::Onward
    }

    fn read_length(&mut self) -> Step
        requires { self.old.stage ≡ Stage.Length }
        ensures { Steps self.old self.new result }
    {
        match self.input.first() {
            None => return Step::Wait,
            Some(b'$') => {}
            Some(byte) => return self.refuse(BadRequest::ExpectedDollar(byte), 0),
        }
        match self.input.header() {
            Header::Open => Step::Wait,
            Header::Bad(kind, place) => self.refuse(kind, place),
            Header::Line(end) => self.take_length(end),
        }
    }

    fn take_length(&mut self, end: usize) -> Step
        requires stage { self.old.stage ≡ Stage.Length }
        requires mark { slice_get self.old.input 0 ≡ Some dollar }
        requires line { IsHeaderLine self.old.input end }
        ensures { Steps self.old self.new result }
    {
        let Some(length) = read_length(&self.input.front(end)[1..]) else {
            return self.refuse(BadRequest::BulkLength, 0);
        };
        self.input.skip(end + 2);
        self.read += end as u64 + 2;
        self.stage = Stage::Word(length as usize);
        Step::Onward
    }

    fn read_word(&mut self, size: usize) -> Result<Step, NoMemory>
        requires { self.old.stage ≡ Stage.Word size }
        ensures ok { IfOk result (Steps self.old self.new) }
        ensures err { OnErr result (seen self.new ≡ seen self.old) }
    {
        self.gather(size)?;
        if self.draft.tail_len() < size {
            return Ok(Step::Wait);
        }
        match self.input.line_end(0) {
            LineEnd::Open => Ok(Step::Wait),
            LineEnd::Missing(place) => Ok(self.refuse(BadRequest::NoLineEnd, size + place)),
            LineEnd::There => self.take_word(size),
        }
    }

    // Takes what came of a word of this size out of the input.
    fn gather(&mut self, size: usize) -> Result<(), NoMemory>
        requires { self.old.stage ≡ Stage.Word size }
        ensures seen { seen self.new ≡ seen self.old }
        ensures stage { self.new.stage ≡ self.old.stage }
        ensures shorter { length self.new.input ≤ length self.old.input }
        ensures all { OnOk result (IsGathered size self.new) }
    {
        let left = size - self.draft.tail_len();
        if self.draft.len() == 0 {
            let (words, bytes) = ahead(self.count - 1);
            self.draft.reserve(words + 1, left + bytes)?;
        }
        let more = self.input.len().min(left);
        self.draft.add(self.input.front(more), size)?;
        self.input.skip(more);
        Ok(())
    }

    fn take_word(&mut self, size: usize) -> Result<Step, NoMemory>
        requires stage { self.old.stage ≡ Stage.Word size }
        requires all { length self.old.draft.tail ≡ size }
        requires whole { IsFound self.old.input 0 LineEnd.There }
        ensures ok { IfOk result (Steps self.old self.new) }
        ensures err { OnErr result (seen self.new ≡ seen self.old) }
    {
        self.draft.end_word()?;
        self.input.skip(2);
        self.read += size as u64 + 2;
        if self.draft.len() < self.count {
            self.stage = Stage::Length;
            return Ok(Step::Onward);
        }
        self.stage = Stage::Request;
        self.passed += self.read;
        self.read = 0;
        Ok(Step::Took(self.draft.take()))
    }

    fn read_line(&mut self) -> Result<Step, NoMemory>
        requires stage { self.old.stage ≡ Stage.Request }
        requires no_array { begins_array self.old.input ≡ false }
        ensures ok { IfOk result (Steps self.old self.new) }
        ensures err { OnErr result (seen self.new ≡ seen self.old) }
    {
        let end = self.input.find(LF);
        if end == FARTHEST {
            return Ok(self.refuse(BadRequest::LineTooLong, 0));
        }
        if end == self.input.len() {
            return Ok(Step::Wait);
        }
        self.take_line(end)
    }

    fn take_line(&mut self, end: usize) -> Result<Step, NoMemory>
        requires stage { self.old.stage ≡ Stage.Request }
        requires line { IsInlineLine self.old.input end }
        ensures ok { IfOk result (Steps self.old self.new) }
        ensures err { OnErr result (seen self.new ≡ seen self.old) }
    {
        if let Some(place) = first_quote(self.input.front(end)) {
            return Ok(self.refuse(BadRequest::Quote, place));
        }
        let words = line_words(self.alloc, self.input.front(end))?;
        self.input.skip(end + 1);
        self.passed += end as u64 + 1;
        if words.is_empty() {
            return Ok(Step::Onward);
        }
        Ok(Step::Took(words))
    }

    // Why no request stands here, and where, counted from the first byte that was not read.
    fn refuse(&self, kind: BadRequest, place: usize) -> Step
        requires within { place ≤ length self.now.draft.tail + length self.now.input }
        requires bad { BadAt (seen self.now).rest kind (self.now.read + place) }
        ensures { Steps self.now self.now result }
    {
        Step::Bad(kind, self.passed + self.read + place as u64)
    }
}
