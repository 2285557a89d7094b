//! The record of a client, as plain data.

use crate::{Pending, Queued};
use core_types::{Blob, Sequence};

/// What a host knows of a client: what it waits for and what waits for it, its transaction, and
/// what it was told and has not taken.
#[derive(Debug, Drop)]
pub struct Client {
    /// Whether its requests are no longer served.
    pub closing: bool,
    /// The ticket that it waits for.
    pub waiting: Option<u64>,
    /// The requests that came while it waited, in order.
    pub pending: Sequence<Pending>,
    /// Its transaction, from MULTI on.
    pub queue: Option<Queued>,
    /// The keys that it watches, in byte order, each once.
    pub watched: Sequence<Blob>,
    /// Whether a key was changed since it is watched.
    pub touched: bool,
    /// The place in the stream of its replies at which `told` begins: the number of bytes that it
    /// has taken.
    pub from: u64,
    /// The bytes that it was told and has not taken.
    pub told: Blob,
}
