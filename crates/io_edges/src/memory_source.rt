//! A source in memory, which tells what is left and fails at the calls it is told to.

ghost use Rattle.std.specs.Prelude.{◌≡◌, min, length, take, IfOk};
ghost use Rattle.io_edges.specs.Memory.{holding, source_telling};

use crate::fault_plan::FaultPlan;
use crate::{Source, SourceFault};
use sequences::{Blob, NoMemory};
use std::alloc::Global;
use std::marker::Model;

/// A source of the bytes that it was made with.
#[derive(Debug, Drop)]
pub struct MemorySource {
    bytes: Blob,
    taken: usize,
    plan: FaultPlan,
}

impl Model for MemorySource {
    ghost use Rattle.std.specs.Prelude.{◌≤◌, length, drop};
    ghost use Rattle.io_edges.specs.Memory.{Held};

    ghost Value = { Held };

    ghost view = { λ s. record { bytes = drop s.taken s.bytes; plan = s.plan } };

    ghost invariant = { λ s. s.taken ≤ length s.bytes };
}

impl MemorySource {
    /// A source of these bytes, which fails at the calls of these numbers, counted from 1.
    pub fn new(alloc: Global, bytes: &[u8], fails: &[u64]) -> Result<MemorySource, NoMemory>
        ensures holds { IfOk result (λ source. source ≡ holding bytes.now fails.now) }
    {
        Ok(MemorySource {
            bytes: Blob::from_slice(alloc, bytes)?,
            taken: 0,
            plan: FaultPlan::new(alloc, fails)?,
        })
    }
}

impl Source for MemorySource {
    ghost told = { source_telling };

    fn take(&mut self, into: &mut [u8]) -> Result<usize, SourceFault> {
        if self.plan.strikes() {
            return Err(SourceFault);
        }
        let (_, rest) = self.bytes.as_slice().split_at(self.taken);
        let count = copy_front(rest, into);
        self.taken += count;
        Ok(count)
    }
}

// Copies as much as fits, and answers how much that is.
fn copy_front(from: &[u8], into: &mut [u8]) -> usize
    ensures count { result ≡ min (length from.now) (length into.old) }
    ensures copied { take result into.new ≡ take result from.now }
{
    let count = from.len().min(into.len());
    into[..count].copy_from_slice(&from[..count]);
    count
}
