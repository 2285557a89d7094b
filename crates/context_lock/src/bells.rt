//! Bells: a thread that found nothing to do in its stay sleeps on one until it is rung.
//!
//! Who waits takes the key of its bell before it enters, and waits on it where the stay found
//! nothing. Who changes what it waits for rings after its own stay. So no ring is lost: either the
//! change was made before the stay of the one who waits, which then sees it, or the ring comes
//! after the key was taken, and ends the wait. No clause speaks of this.

ghost use Rattle.std.specs.Prelude.{◌≡◌};
ghost use Rattle.std.specs.Vec.{vec_len};

use crossbeam_utils::sync::EventCount;
use std::alloc::{AllocError, Global};

const CLIENTS: u64 = 1024;

/// The bells of a lock: one for all clients whose numbers are alike modulo 1,024, and one for the
/// workers.
#[derive(Drop)]
pub(crate) struct Bells {
    clients: Vec<EventCount>,
    workers: EventCount,
    ghost sized: { vec_len clients ≡ 1024 },
}

impl Bells {
    pub(crate) fn new(alloc: Global) -> Result<Bells, AllocError> {
        let mut clients = Vec::with_capacity(alloc, CLIENTS as usize)?;
        clients.resize_with(CLIENTS as usize, EventCount::new)?;
        let workers = EventCount::new();
        Ok(Bells { clients, workers })
    }

    pub(crate) fn client(&self, number: u64) -> &EventCount {
        &self.clients[(number % CLIENTS) as usize]
    }

    pub(crate) fn workers(&self) -> &EventCount {
        &self.workers
    }
}
