//! The timers that are set, by their numbers.

ghost use Rattle.std.specs.Prelude.{◌≡◌, OnOk, OnErr, IfOk, None};
ghost use Rattle.std.specs.Option.{option_copied};
ghost use Rattle.std.specs.Ordering.{nat_cmp};
ghost use Rattle.std.specs.BTreeMap.{IsOrdered};
ghost use Rattle.std.specs.FinMap as map;

use crate::Timer;
use sequences::{Duplicate, NoMemory};
use std::alloc::Global;
use std::collections::BTreeMap;
use std::marker::Model;

/// The timers that are set. Every call but a copy is O(log n); only `insert` takes memory, and a
/// copy.
#[derive(Debug, Drop)]
pub(crate) struct Table {
    timers: BTreeMap<u64, Timer>,
}

impl Model for Table {
    ghost use Rattle.std.specs.FinMap.{from_entries};
    ghost use Rattle.module_timers.specs.TimerTable.{TimerMap, coded_timers};

    ghost Value = { TimerMap };

    ghost coded = { coded_timers };

    ghost view = { λ t. from_entries t.timers.entries };
}

impl Table {
    pub(crate) fn new(alloc: Global) -> Table
        ensures empty { result ≡ map.empty }
    {
        Table {
            timers: BTreeMap::new(alloc),
        }
    }

    // How many are set.
    pub(crate) fn len(&self) -> usize
        ensures length { result ≡ map.len self.now }
    {
        self.timers.len()
    }

    pub(crate) fn get(&self, number: u64) -> Option<&Timer>
        ensures timer { option_copied result ≡ map.get self.now number }
    {
        self.timers.get(&number)
    }

    // Sets a timer under a number that is free.
    pub(crate) fn insert(&mut self, number: u64, timer: Timer) -> Result<(), NoMemory>
        requires { map.get self.old number ≡ None }
        ensures ok { OnOk result (self.new ≡ map.insert self.old number timer) }
        ensures err { OnErr result (self.new ≡ self.old) }
    {
        match self.timers.insert(number, timer) {
            Ok(_) => Ok(()),
            Err(_) => Err(NoMemory),
        }
    }

    pub(crate) fn remove(&mut self, number: u64) -> Option<Timer>
        ensures timer { result ≡ map.get self.old number }
        ensures removed { self.new ≡ map.remove self.old number }
    {
        self.timers.remove(&number)
    }

    // A copy of the timers, by number.
    pub(crate) fn copy(&self, alloc: Global) -> Result<Vec<(u64, Timer)>, NoMemory>
        ensures same { IfOk result (λ copies. copies.items ≡ map.entries self.now) }
    {
        copied(alloc, &self.timers)
    }
}

fn copied(alloc: Global, timers: &BTreeMap<u64, Timer>) -> Result<Vec<(u64, Timer)>, NoMemory>
    ensures same { IfOk result (λ copies. copies.items ≡ timers.now.entries) }
    ensures ordered { IsOrdered nat_cmp timers.now }
{
    let mut copies = Vec::new(alloc);
    for (number, timer) in timers.iter() {
        copies.push((*number, timer.duplicate(alloc)?))?;
    }
    Ok(copies)
}
