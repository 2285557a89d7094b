//! Which calls of an object in memory fail.

ghost use Rattle.std.specs.Prelude.{◌≡◌, ◌≤◌, ◌↔◌, true, if◌then◌else◌, IfOk};
ghost use Rattle.io_edges.specs.Memory.{planned};
ghost use Rattle.io_edges.specs.inner.Calls.{NextFails, counted, faulted};

use sequences::NoMemory;
use std::alloc::Global;
use std::marker::Model;

/// The calls that fail, by their numbers from 1, how many there were, and how many failed. Both
/// counts stand still at the end of 64 bits.
#[derive(Debug, Drop)]
pub struct FaultPlan {
    fails: Vec<u64>,
    calls: u64,
    faults: u64,
}

impl Model for FaultPlan {
    ghost use Rattle.io_edges.specs.Memory.{Plan};

    ghost Value = { Plan };

    ghost view = { λ p. record { fails = p.fails.items; calls = p.calls; faults = p.faults } };
}

impl FaultPlan {
    /// Fails at the calls of these numbers.
    pub fn new(alloc: Global, fails: &[u64]) -> Result<FaultPlan, NoMemory>
        ensures planned { IfOk result (λ plan. plan ≡ planned fails.now) }
    {
        Ok(FaultPlan {
            fails: Vec::from_slice(alloc, fails)?,
            calls: 0,
            faults: 0,
        })
    }

    /// Counts a call, and answers whether it fails. Where it does, the fault is counted too.
    pub fn strikes(&mut self) -> bool
        ensures listed { (result ≡ true) ↔ NextFails self.old }
        ensures counts { self.new
            ≡ (if result then faulted (counted self.old) else counted self.old) }
        ensures later { self.old.faults ≤ self.new.faults }
    {
        self.calls = self.calls.saturating_add(1);
        let fails = self.fails.contains(&self.calls);
        if fails {
            self.faults = self.faults.saturating_add(1);
        }
        fails
    }

    /// Counts a fault of a call that was not told to fail.
    pub fn count_fault(&mut self)
        ensures counts { self.new ≡ faulted self.old }
        ensures later { self.old.faults ≤ self.new.faults }
    {
        self.faults = self.faults.saturating_add(1);
    }
}
