//! What a host sends to a replica.

use core_types::{Blob, Effects};

/// What a host sends to a replica of one of its runs. Events are counted from 0: number n stands
/// for the keys after the first n of them.
#[derive(Debug, Drop)]
pub enum Frame {
    /// The keys after the first `number` events, as a dump of RDB version 9.
    Full {
        /// The run.
        run: u64,
        /// How many events made the keys.
        number: u64,
        /// The dump.
        file: Blob,
    },
    /// What the events from `from` to `to` did: the last of them, which is `to - 1`, has these
    /// effects, and the others have none.
    Unit {
        /// The run.
        run: u64,
        /// The first event.
        from: u64,
        /// The number after the last event.
        to: u64,
        /// The effects of the last event.
        effects: Effects,
    },
}
