//! What a module answers to a command, and why its calls stop.

use core_types::{Blob, LoadFault, Reply, Stop};

/// What is to be done with the client that sent a command.
#[derive(Debug, Drop)]
pub enum Verdict {
    /// It is replied to.
    Say(Reply),
    /// It waits, until the job is worked off or its time is up.
    Block {
        /// For how many milliseconds at most, or 0 without an end.
        timeout_ms: u64,
        /// What a worker is given.
        job: Blob,
    },
}

/// Why a saved value was not loaded.
#[derive(Clone, Copy, Debug, PartialEq, Eq)]
pub enum LoadStop {
    /// The module does not take it.
    Refused(LoadFault),
    /// Memory ran out, or no more values can be counted.
    Stopped(Stop),
}

/// Why an effect was not applied. The old value is handed back.
#[derive(Debug)]
pub enum ApplyStop<V> {
    /// The words make nothing of it.
    Bad(Option<V>),
    /// Memory ran out, or no more values can be counted.
    Stopped(Stop, Option<V>),
}
