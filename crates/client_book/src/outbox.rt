//! The replies that wait for a client, as the bytes that are sent.

ghost use Rattle.std.specs.Prelude.{◌≡◌, ◌+◌, ◌-◌, ◌≤◌, ◌++◌, length, take, drop, min, IfOk, OnOk, OnErr};
ghost use Rattle.resp_codec.specs.ReplyText.{text};
ghost use Rattle.client_book.specs.inner.Outbox.{new_outgoing, free_at, holds, lets_go};

use core_types::{Blob, NoMemory, Reply};
use resp_codec::write_reply;
use std::alloc::Global;
use std::marker::Model;

// Fewer bytes than this that were taken are not worth moving the rest for, nor is so little memory
// given back.
const SMALL: usize = 4_096;

/// Bytes that are told and not taken. A front of them may be taken; after a flush all of them.
#[derive(Debug, Drop)]
pub(crate) struct Outbox {
    // What was taken and not yet let go, and what waits behind it.
    bytes: Vec<u8>,
    // How many of the bytes were taken.
    start: usize,
    // The place in the client's stream of the first byte that waits.
    from: u64,
    // How many of the bytes that wait may be taken, while no flush comes after `flushes`.
    free: u64,
    flushes: u64,
}

impl Model for Outbox {
    ghost use Rattle.std.specs.Prelude.{◌+◌, ◌^◌, ◌≤◌, ◌<◌, length, drop};
    ghost use Rattle.client_book.specs.inner.Outbox.{Outgoing, IsWhole};

    ghost Value = { Outgoing };

    ghost view = { λ o. record {
      from = o.from;
      told = drop o.start o.bytes.items;
      free = o.free;
      flushes = o.flushes;
    } };

    ghost invariant = { λ o. IsWhole o.bytes.items o.start o.from o.free };
}

impl Outbox {
    /// Nothing told. Takes no memory.
    pub(crate) fn new(alloc: Global) -> Outbox
        ensures empty { result ≡ new_outgoing }
    {
        Outbox {
            bytes: Vec::new(alloc),
            start: 0,
            from: 0,
            free: 0,
            flushes: 0,
        }
    }

    /// The number of bytes that were taken.
    pub(crate) fn taken(&self) -> u64
        ensures taken { result ≡ self.now.from }
    {
        self.from
    }

    /// The number of bytes that wait.
    pub(crate) fn untaken(&self) -> u64
        ensures untaken { result ≡ length self.now.told }
    {
        (self.bytes.len() - self.start) as u64
    }

    /// The number of bytes that may be taken after this number of flushes.
    pub(crate) fn free(&self, flushes: u64) -> u64
        ensures free { result ≡ free_at flushes self.now }
        ensures within { result ≤ length self.now.told }
    {
        if self.flushes == flushes {
            self.free
        } else {
            self.untaken()
        }
    }

    /// The bytes that wait.
    pub(crate) fn copy(&self, alloc: Global) -> Result<Blob, NoMemory>
        ensures same { IfOk result (λ bytes. bytes ≡ self.now.told) }
    {
        Blob::from_slice(alloc, &self.bytes[self.start..])
    }

    /// Adds the text of a reply, which may not be taken before the next flush. An `Err` changes
    /// nothing.
    pub(crate) fn hold(
        &mut self,
        alloc: Global,
        reply: &Reply,
        flushes: u64,
    ) -> Result<(), NoMemory>
        ensures ok { OnOk result (self.new ≡ holds (text reply.now) flushes self.old) }
        ensures err { OnErr result (self.new ≡ self.old) }
    {
        let free = self.free(flushes);
        let room = u64::MAX - self.from;
        write_text(alloc, &mut self.bytes, reply, self.start, room)?;
        self.free = free;
        self.flushes = flushes;
        Ok(())
    }

    /// Moves the longest front that may be taken after this number of flushes and fits, and says
    /// how long it is.
    pub(crate) fn take(&mut self, into: &mut [u8], flushes: u64) -> usize
        ensures count { result ≡ min (length into.old) (free_at flushes self.old) }
        ensures moved { into.new ≡ take result self.old.told ++ drop result into.old }
        ensures left { self.new ≡ lets_go result flushes self.old }
    {
        let free = self.free(flushes);
        let count = into.len().min(free as usize);
        let end = self.start + count;
        into[..count].copy_from_slice(&self.bytes[self.start..end]);
        self.start = let_go(&mut self.bytes, end);
        self.from += count as u64;
        self.free = free - count as u64;
        count
    }
}

// Adds a reply's text, of which there may be no more than `room` bytes behind the first `start`. An
// `Err` changes nothing.
fn write_text(
    alloc: Global,
    bytes: &mut Vec<u8>,
    reply: &Reply,
    start: usize,
    room: u64,
) -> Result<(), NoMemory>
    requires { start ≤ length bytes.old.items }
    ensures ok { OnOk result (bytes.new.items ≡ bytes.old.items ++ text reply.now) }
    ensures room { OnOk result (length bytes.new.items - start ≤ room) }
    ensures err { OnErr result (bytes.new.items ≡ bytes.old.items) }
{
    let length = bytes.len();
    let mut out = Blob::from_vec(std::mem::replace(bytes, Vec::new(alloc)));
    let mut written = write_reply(&mut out, reply);
    if out.len() as u64 - start as u64 > room {
        out.truncate(length);
        written = Err(NoMemory);
    }
    *bytes = out.into_vec();
    written
}

// Lets go of the first `taken` bytes, which are not looked at again, or keeps them for a while.
// Says how many are kept. Where it moves bytes they are no more than those that it lets go of, and
// where nothing or little is left it gives the memory back.
fn let_go(bytes: &mut Vec<u8>, taken: usize) -> usize
    requires { taken ≤ length bytes.old.items }
    ensures kept { result ≤ length bytes.new.items }
    ensures same { drop result bytes.new.items ≡ drop taken bytes.old.items }
    ensures few { 4096 ≤ result → result + result ≤ length bytes.new.items }
{
    let rest = bytes.len() - taken;
    if taken < rest || (taken < SMALL && rest > 0) {
        return taken;
    }
    bytes.rotate_left(taken);
    bytes.truncate(rest);
    bytes.shrink_to(SMALL);
    0
}
