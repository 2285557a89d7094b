//! A source served to its end, or to QUIT.

ghost use Rattle.std.specs.Prelude.{ℕ, ◌≡◌, ◌<◌, ◌≤◌, ◌+◌, ◌^◌, [], length, take, Some, IfOk, IfErr, OnOk, OnErr};
ghost use Rattle.std.specs.Io.KnownBytes.{Consumes, IsAtEnd};
ghost use Rattle.resp_codec.specs.Requests.{quits};
ghost use Rattle.server_shell.specs.Faults.{StandsAt, counted_by, end_of, faults_of};
ghost use Rattle.server_shell.specs.Pipe.{PipeEnds, SourceEnds, is_over, outside_of};
ghost use Rattle.server_shell.specs.Stream.{IsCaughtUp};
ghost use Rattle.server_shell.specs.inner.Taking.{RefuseEnds, TakeStops};

use crate::serving::{refuse_stream, serve_event, serve_request};
use crate::status::Status;
use core_types::{Args, BadRequest, Event};
use disk_model::Dir;
use durable_host::DurableHost;
use io_edges::{Clock, Sink, Source};
use resp_codec::{Got, Reader};
use std::alloc::Global;

/// How many bytes are read at a time, at the most.
pub const PIECE: usize = 16_384;

/// How many bytes are read in one run, at the most.
pub const MAX_INPUT: u64 = 1 << 40;

/// Serves a source as client 1: it comes, its requests are served up to and with a QUIT, what they
/// are told is sent once it is flushed, and it goes where its stream came to its end.
///
/// `Done` is the end of the input, or QUIT. Any other status says what ended the run: a fault of
/// the directory, the source or the sink, want of memory, a spent counter, more than 2^40 bytes, a
/// bad request (whose error is sent), or an end within a request. What stops the host while the
/// client goes comes before the end of its stream.
pub fn serve_pipe<D: Dir, S: Source, K: Sink, C: Clock>(
    alloc: Global,
    host: &mut DurableHost<D>,
    source: &mut S,
    clock: &mut C,
    sink: &mut K,
) -> Status
    requires caught_up { IsCaughtUp D.told host.old }
    ensures ends { PipeEnds result D.told host.old host.new
        (outside_of (S.told source.old) (S.told source.new) (C.told clock.old) (C.told clock.new)
        (K.told sink.old) (K.told sink.new)) }
    ensures counts { faults_of (D.told host.new.dir) (S.told source.new).faults (K.told sink.new)
        ≡ counted_by result
        (faults_of (D.told host.old.dir) (S.told source.old).faults (K.told sink.old)) }
    ensures stands { StandsAt result host.new }
{
    if let Err(status) = serve_event(host, Event::Join(1)) {
        return status;
    }
    let end = match serve_source(alloc, host, source, clock, sink) {
        Ok(()) => Status::Done,
        Err(status) => status,
    };
    if !is_at_end_of_stream(&end) {
        return end;
    }
    match serve_event(host, Event::Gone(1)) {
        Ok(()) => end,
        Err(status) => status,
    }
}

// Whether the stream came to its end.
fn is_at_end_of_stream(end: &Status) -> bool
    ensures { result ≡ is_over end.now }
{
    matches!(
        end,
        Status::Done | Status::CutOff(_) | Status::Protocol(_, _)
    )
}

// Serves the requests of a source as those of client 1, up to and with a QUIT, and sends what they
// are told once it is flushed.
fn serve_source<D: Dir, S: Source, K: Sink, C: Clock>(
    alloc: Global,
    host: &mut DurableHost<D>,
    source: &mut S,
    clock: &mut C,
    sink: &mut K,
) -> Result<(), Status>
    requires caught_up { IsCaughtUp D.told host.old }
    ensures ends { SourceEnds (end_of result) D.told host.old host.new
        (outside_of (S.told source.old) (S.told source.new) (C.told clock.old) (C.told clock.new)
        (K.told sink.old) (K.told sink.new)) }
    ensures counts { faults_of (D.told host.new.dir) (S.told source.new).faults (K.told sink.new)
        ≡ counted_by (end_of result)
        (faults_of (D.told host.old.dir) (S.told source.old).faults (K.told sink.old)) }
    ensures stands { StandsAt (end_of result) host.new }
{
    let mut reader = Reader::new(alloc);
    let mut buffer = [0u8; PIECE];
    let mut taken = 0u64;
    'serving: loop {
        match reader.next()? {
            Got::Request(words) => {
                let quits = is_quit(&words);
                serve_request(host, words, clock, sink)?;
                if quits {
                    return Ok(());
                }
            }
            Got::More => {
                let count = next_piece(source, &mut buffer, taken)?;
                if count == 0 {
                    return at_end(&reader);
                }
                reader.feed(&buffer[..count])?;
                taken += count as u64;
            }
            Got::Bad(kind, offset) => return Err(refuse(host, kind, offset, sink)),
        }
    }
}

// Tells client 1 of a bad place, and says how the run ends.
fn refuse<D: Dir, K: Sink>(
    host: &mut DurableHost<D>,
    kind: BadRequest,
    offset: u64,
    sink: &mut K,
) -> Status
    requires caught_up { IsCaughtUp D.told host.old }
    ensures end { RefuseEnds result kind offset D.told host.old host.new
        (K.told sink.old).got (K.told sink.new).got }
    ensures counts { faults_of (D.told host.new.dir) 0 (K.told sink.new)
        ≡ counted_by result (faults_of (D.told host.old.dir) 0 (K.told sink.old)) }
    ensures stands { StandsAt result host.new }
{
    match refuse_stream(host, kind, sink) {
        Ok(()) => Status::Protocol(kind, offset),
        Err(status) => status,
    }
}

// How an input ends here: all of it was served, or it ends within a request.
fn at_end(reader: &Reader) -> Result<(), Status>
    ensures whole { OnOk result (reader.now.rest ≡ []) }
    ensures cut { IfErr result (λ status.
        (status ≡ Status.CutOff (length reader.now.rest)) × (0 < length reader.now.rest)) }
{
    match reader.rest() {
        0 => Ok(()),
        count => Err(Status::CutOff(count)),
    }
}

// The next piece of an input of which `taken` bytes were taken. At its end the piece is empty.
fn next_piece<S: Source>(source: &mut S, buffer: &mut [u8], taken: u64) -> Result<usize, Status>
    requires room { 0 < length buffer.old }
    requires within { taken ≤ 2 ^ 40 }
    ensures bound { IfOk result (λ count. count ≤ length buffer.new) }
    ensures within { IfOk result (λ count. taken + count ≤ 2 ^ 40) }
    ensures bytes { IfOk result (λ count.
        Consumes (S.told source.old).left (S.told source.new).left (take count buffer.new)) }
    ensures end { IfOk result (λ count. count ≡ 0 → IsAtEnd (S.told source.new).left) }
    ensures stop { IfErr result (λ status. TakeStops status taken
        (S.told source.old) (S.told source.new)) }
    ensures kept { OnOk result ((S.told source.new).faults ≡ (S.told source.old).faults) }
{
    let room = MAX_INPUT - taken;
    let wanted = room.clamp(1, buffer.len() as u64) as usize;
    let count = source.take(&mut buffer[..wanted])?;
    if count as u64 > room {
        return Err(Status::TooLong);
    }
    Ok(count)
}

// Whether the words are the one word QUIT.
fn is_quit(words: &Args) -> bool
    ensures { result ≡ quits words.now }
{
    match words.get(0) {
        Some(name) if words.len() == 1 => name.eq_ignore_ascii_case(b"QUIT"),
        _ => false,
    }
}
