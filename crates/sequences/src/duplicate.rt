//! What can be copied where memory may run out.

ghost use Rattle.std.specs.Prelude.{◌≡◌, IfOk};

use crate::{Blob, NoMemory};
use std::alloc::Global;

/// A value of which a second one can be made, the same to all that contracts see.
pub trait Duplicate {
    /// A second value like this one.
    fn duplicate(&self, alloc: Global) -> Result<Self, NoMemory>
    where
        Self: Sized,
        ensures same { IfOk result (λ copy. copy ≡ self.now) };
}

impl Duplicate for Blob {
    fn duplicate(&self, alloc: Global) -> Result<Blob, NoMemory> {
        self.copy(alloc)
    }
}
