//! What a host is asked to do, and how it answers.

use crate::{Args, BadRequest, Blob, Duplicate, NoMemory, Sequence};
use std::alloc::Global;
use std::mem::size_of;

// An event is at most 16 bytes wider than its words.
const _: () = prove!(size_of::<Args>() == 48);

const _: () = prove!(size_of::<Event>() <= 64);

/// One event of the machine.
#[derive(Debug, Drop)]
pub enum Event {
    /// The client of this number comes.
    Join(u64),
    /// A client sends the words of a request, of which there is at least one.
    Arrive(u64, Args),
    /// What a client sends is no request.
    Malformed(u64, BadRequest),
    /// A ticket gets the payload that its client waits for.
    Unblock(u64, Blob),
    /// The ticket that was unblocked first is answered.
    Pump,
    /// The clock shows this moment, in milliseconds.
    Tick(u64),
    /// A client goes.
    Gone(u64),
    /// A module is entered from outside with this text.
    Section(u16, Blob),
    /// What was changed is made safe, and what was replied may be handed out.
    Flush,
    /// A rewrite of the log begins.
    RewriteBegin,
    /// A rewrite goes on.
    RewriteStep,
    /// A rewrite ends.
    RewriteEnd,
}

/// Events in the order in which they came.
pub type Events = Sequence<Event>;

impl Duplicate for Event {
    fn duplicate(&self, alloc: Global) -> Result<Event, NoMemory> {
        Ok(match self {
            Event::Join(client) => Event::Join(*client),
            Event::Arrive(client, words) => Event::Arrive(*client, words.copy(alloc)?),
            Event::Malformed(client, kind) => Event::Malformed(*client, *kind),
            Event::Unblock(ticket, payload) => Event::Unblock(*ticket, payload.copy(alloc)?),
            Event::Pump => Event::Pump,
            Event::Tick(moment) => Event::Tick(*moment),
            Event::Gone(client) => Event::Gone(*client),
            Event::Section(place, text) => Event::Section(*place, text.copy(alloc)?),
            Event::Flush => Event::Flush,
            Event::RewriteBegin => Event::RewriteBegin,
            Event::RewriteStep => Event::RewriteStep,
            Event::RewriteEnd => Event::RewriteEnd,
        })
    }
}

/// How an event was answered.
#[derive(Debug, Drop)]
pub enum Answer {
    /// It was done.
    Done,
    /// The client is not there, or is no longer served.
    NoClient,
    /// The client's number is not above all that joined.
    StaleClient,
    /// The ticket has a payload.
    Already,
    /// The ticket was answered.
    Closed,
    /// No ticket had this number.
    NeverIssued,
    /// The ticket waits on a key, and is answered once that is there.
    OnKey,
    /// No ticket waits to be answered.
    NothingReady,
    /// This ticket was answered.
    Pumped(u64),
    /// No module has this number.
    NoModule,
    /// What the module said.
    Told(Blob),
    /// A rewrite is under way.
    RewriteRunning,
    /// No rewrite is under way.
    NoRewrite,
    /// This number of keys is left to be rewritten.
    Left(u64),
    /// The rewrite cannot end: this number of keys is left.
    KeysLeft(u64),
    /// The log was rewritten, and has this length.
    Rewritten(u64),
}
