//! Work that a blocked client waits for.

use crate::{Blob, Duplicate, NoMemory, Sequence};
use std::alloc::Global;

/// A job to be worked off for the client of a ticket.
#[derive(Debug, Drop)]
pub struct Order {
    /// The number of the ticket.
    pub ticket: u64,
    /// The number of the module whose job it is.
    pub place: u16,
    /// The job.
    pub job: Blob,
}

/// Orders, the oldest first.
pub type Orders = Sequence<Order>;

impl Duplicate for Order {
    fn duplicate(&self, alloc: Global) -> Result<Order, NoMemory> {
        Ok(Order {
            ticket: self.ticket,
            place: self.place,
            job: self.job.copy(alloc)?,
        })
    }
}
