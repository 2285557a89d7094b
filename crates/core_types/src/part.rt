//! A reply, or the header of an array whose replies follow.

use crate::{Blob, Duplicate, Line, NoMemory};
use std::alloc::Global;

/// What a list of replies is made of: a reply that holds no other, or an array's header.
#[derive(Debug, Drop)]
pub enum Part {
    /// A status, as `+OK`.
    Simple(Line),
    /// An error, as `-ERR syntax error`.
    Error(Line),
    /// A number.
    Int(i64),
    /// A byte string.
    Bulk(Blob),
    /// No value.
    Null,
    /// No array.
    NullArray,
    /// An array of this number of replies, whose parts come next.
    ArrayOf(u64),
}

impl Duplicate for Part {
    fn duplicate(&self, alloc: Global) -> Result<Part, NoMemory> {
        Ok(match self {
            Part::Simple(text) => Part::Simple(text.copy(alloc)?),
            Part::Error(text) => Part::Error(text.copy(alloc)?),
            Part::Int(n) => Part::Int(*n),
            Part::Bulk(bytes) => Part::Bulk(bytes.copy(alloc)?),
            Part::Null => Part::Null,
            Part::NullArray => Part::NullArray,
            Part::ArrayOf(count) => Part::ArrayOf(*count),
        })
    }
}
