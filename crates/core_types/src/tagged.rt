//! What a module's value is made of when it is saved.

use crate::{Blob, Duplicate, NoMemory, Sequence};
use std::alloc::Global;

/// One saved part of a module's value: a number or a byte string.
#[derive(Debug, Drop)]
pub enum Tagged {
    /// A number of 64 bits; a signed one is its two's complement.
    Number(u64),
    /// A byte string.
    Bytes(Blob),
}

/// The parts of a saved value, in order.
pub type Items = Sequence<Tagged>;

impl Duplicate for Tagged {
    fn duplicate(&self, alloc: Global) -> Result<Tagged, NoMemory> {
        Ok(match self {
            Tagged::Number(n) => Tagged::Number(*n),
            Tagged::Bytes(bytes) => Tagged::Bytes(bytes.copy(alloc)?),
        })
    }
}
