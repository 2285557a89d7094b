//! What a blocked client waits for.

ghost use Rattle.std.specs.Prelude.{◌≡◌};
ghost use Rattle.blocked_tickets.specs.Ticket.{new_ticket, open_deadline, waiter};

use sequences::{Blob, Duplicate, NoMemory};
use std::alloc::Global;

/// Where a ticket stands.
#[derive(Clone, Copy, Debug, PartialEq, Eq)]
pub enum Phase {
    /// Its client waits.
    Waiting,
    /// Its deadline came first, and its client was told so.
    TimedOut,
    /// Its client left or was closed.
    Gone,
}

/// A ticket of a blocked client.
#[derive(Debug, Drop)]
pub struct Ticket {
    /// The client that waits.
    pub client: u64,
    /// The number of the module whose job it is.
    pub place: u16,
    /// The job.
    pub job: Blob,
    /// The moment in milliseconds from which on it times out, or `None` where it never does.
    pub deadline: Option<u64>,
    /// Where it stands.
    pub phase: Phase,
    /// What it was unblocked with, or `None` before its unblock.
    pub payload: Option<Blob>,
}

impl Ticket {
    // A ticket as it is opened.
    pub(crate) fn new(client: u64, place: u16, job: Blob, deadline: Option<u64>) -> Ticket
        ensures opened { result ≡ new_ticket client place job deadline }
    {
        Ticket {
            client,
            place,
            job,
            deadline,
            phase: Phase::Waiting,
            payload: None,
        }
    }

    // The client that waits on it, if one does.
    pub(crate) fn waiter(&self) -> Option<u64>
        ensures waiter { result ≡ waiter self.now }
    {
        match self.phase {
            Phase::Waiting => Some(self.client),
            Phase::TimedOut | Phase::Gone => None,
        }
    }

    // The deadline that can still come: that of a Waiting ticket without a payload.
    pub(crate) fn open_deadline(&self) -> Option<u64>
        ensures deadline { result ≡ open_deadline self.now }
    {
        match (self.phase, &self.payload) {
            (Phase::Waiting, None) => self.deadline,
            _ => None,
        }
    }
}

impl Duplicate for Ticket {
    fn duplicate(&self, alloc: Global) -> Result<Ticket, NoMemory> {
        let payload = match &self.payload {
            Some(payload) => Some(payload.copy(alloc)?),
            None => None,
        };
        Ok(Ticket {
            client: self.client,
            place: self.place,
            job: self.job.copy(alloc)?,
            deadline: self.deadline,
            phase: self.phase,
            payload,
        })
    }
}
