//! A field of a hash.

use crate::{Blob, Duplicate, NoMemory, Sequence};
use std::alloc::Global;

/// A name and a value.
#[derive(Debug, Drop)]
pub struct Field {
    /// The name.
    pub name: Blob,
    /// The value.
    pub value: Blob,
}

/// Fields in order.
pub type Fields = Sequence<Field>;

impl Duplicate for Field {
    fn duplicate(&self, alloc: Global) -> Result<Field, NoMemory> {
        Ok(Field {
            name: self.name.copy(alloc)?,
            value: self.value.copy(alloc)?,
        })
    }
}
