//! What the book's table has for a client.

ghost use Rattle.std.specs.Prelude.{◌≡◌, IfOk};

use crate::outbox::Outbox;
use crate::watched::Watched;
use crate::{Client, Pending, Queued};
use core_types::{Duplicate, NoMemory, Sequence};
use std::alloc::Global;
use std::collections::VecDeque;

/// A client's record in the form in which it is changed.
#[derive(Debug, Drop)]
pub(crate) struct Entry {
    pub(crate) closing: bool,
    pub(crate) waiting: Option<u64>,
    pub(crate) pending: VecDeque<Pending>,
    pub(crate) queue: Option<Queued>,
    pub(crate) watched: Watched,
    pub(crate) touched: bool,
    pub(crate) outbox: Outbox,
}

impl Entry {
    ghost use Rattle.std.specs.Prelude.{false, None, []};
    ghost use Rattle.client_book.specs.inner.Outbox.{new_outgoing};
    ghost use Rattle.client_book.specs.inner.Entry.{client_of};
    ghost use Rattle.client_book.specs.Client.{new_client};

    /// A client that has just joined. Takes no memory.
    pub(crate) fn new(alloc: Global) -> Entry
        ensures record_of { client_of result ≡ new_client }
        ensures outbox { result.outbox ≡ new_outgoing }
    {
        Entry {
            closing: false,
            waiting: None,
            pending: VecDeque::new(alloc),
            queue: None,
            watched: Watched::new(alloc),
            touched: false,
            outbox: Outbox::new(alloc),
        }
    }

    /// A copy of the record.
    pub(crate) fn copy(&self, alloc: Global) -> Result<Client, NoMemory>
        ensures same { IfOk result (λ client. client ≡ client_of self.now) }
    {
        Ok(Client {
            closing: self.closing,
            waiting: self.waiting,
            pending: copy_pending(alloc, &self.pending)?,
            queue: copy_queue(alloc, &self.queue)?,
            watched: self.watched.copy(alloc)?,
            touched: self.touched,
            from: self.outbox.taken(),
            told: self.outbox.copy(alloc)?,
        })
    }
}

// The same items, in order.
fn copy_pending(alloc: Global, items: &VecDeque<Pending>) -> Result<Sequence<Pending>, NoMemory>
    ensures same { IfOk result (λ copies. copies ≡ items.now.items) }
{
    let mut copies = Sequence::new(alloc);
    for item in items {
        copies.push(item.duplicate(alloc)?)?;
    }
    Ok(copies)
}

// The same queue, where there is one.
fn copy_queue(alloc: Global, queue: &Option<Queued>) -> Result<Option<Queued>, NoMemory>
    ensures same { IfOk result (λ copy. copy ≡ queue.now) }
{
    match queue {
        Some(queued) => Ok(Some(queued.duplicate(alloc)?)),
        None => Ok(None),
    }
}
