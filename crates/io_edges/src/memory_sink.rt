//! A sink in memory, which tells what it has got and fails at the calls it is told to.

ghost use Rattle.std.specs.Prelude.{◌≡◌, [], IfOk};
ghost use Rattle.io_edges.specs.Memory.{holding, sink_telling};

use crate::fault_plan::FaultPlan;
use crate::{Sink, SinkFault};
use sequences::{Blob, NoMemory};
use std::alloc::Global;
use std::marker::Model;

/// A sink that keeps what it gets, each piece whole. A piece for which it finds no memory is a
/// fault.
#[derive(Debug, Drop)]
pub struct MemorySink {
    bytes: Blob,
    plan: FaultPlan,
}

impl Model for MemorySink {
    ghost use Rattle.io_edges.specs.Memory.{Held};

    ghost Value = { Held };

    ghost view = { λ s. record { bytes = s.bytes; plan = s.plan } };
}

impl MemorySink {
    /// An empty sink, which fails at the calls of these numbers, counted from 1.
    pub fn new(alloc: Global, fails: &[u64]) -> Result<MemorySink, NoMemory>
        ensures empty { IfOk result (λ sink. sink ≡ holding [] fails.now) }
    {
        Ok(MemorySink {
            bytes: Blob::new(alloc),
            plan: FaultPlan::new(alloc, fails)?,
        })
    }

    /// What it has got, in order.
    pub fn content(&self) -> &[u8]
        ensures bytes { result.now ≡ self.now.bytes }
    {
        self.bytes.as_slice()
    }
}

impl Sink for MemorySink {
    ghost told = { sink_telling };

    fn put(&mut self, piece: &[u8]) -> Result<usize, SinkFault> {
        if self.plan.strikes() {
            return Err(SinkFault);
        }
        match self.bytes.push_slice(piece) {
            Ok(()) => Ok(piece.len()),
            Err(NoMemory) => {
                self.plan.count_fault();
                Err(SinkFault)
            }
        }
    }
}
