//! What a module asked to be told later.

use sequences::{Blob, Duplicate, NoMemory};
use std::alloc::Global;

/// A timer of a module.
#[derive(Debug, Drop)]
pub struct Timer {
    /// The number of the module that set it.
    pub place: u16,
    /// The moment in milliseconds from which on it fires.
    pub deadline: u64,
    /// What the module gets back when it fires.
    pub parcel: Blob,
}

impl Duplicate for Timer {
    fn duplicate(&self, alloc: Global) -> Result<Timer, NoMemory> {
        Ok(Timer {
            place: self.place,
            deadline: self.deadline,
            parcel: self.parcel.copy(alloc)?,
        })
    }
}
