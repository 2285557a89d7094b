//! The deadlines of the timers, in order.

ghost use Rattle.std.specs.Prelude.{◌≡◌, OnOk, OnErr};
ghost use Rattle.std.specs.FinSet as set;
ghost use Rattle.std.specs.BTreeSet.{IsOrdered};
ghost use Rattle.module_timers.specs.Due.{due_cmp};
ghost use Rattle.module_timers.specs.inner.Earliest.{IsEarliest, first_come};

use sequences::NoMemory;
use std::alloc::Global;
use std::collections::BTreeSet;
use std::marker::Model;

/// A deadline and its timer. They are ordered by deadline, and then by number.
#[derive(Clone, Copy, Debug, PartialEq, Eq, PartialOrd, Ord)]
pub(crate) struct Due {
    /// The moment in milliseconds.
    pub deadline: u64,
    /// The number of the timer.
    pub timer: u64,
}

/// The deadlines of the timers that are set. `insert` and `remove` are O(log n); only `insert`
/// takes memory.
#[derive(Debug, Drop)]
pub(crate) struct Dues {
    dues: BTreeSet<Due>,
}

impl Model for Dues {
    ghost use Rattle.std.specs.FinSet.{FinSet, from_list, code};
    ghost use Rattle.module_timers.specs.Due.{due_cmp, coded_due};

    ghost Value = { FinSet due_cmp };

    ghost coded = { code coded_due };

    ghost view = { λ d. from_list d.dues.keys };
}

impl Dues {
    pub(crate) fn new(alloc: Global) -> Dues
        ensures empty { result ≡ set.empty }
    {
        Dues {
            dues: BTreeSet::new(alloc),
        }
    }

    // The earliest of those that have come and whose number is below this one.
    pub(crate) fn first(&self, now: u64, below: u64) -> Option<u64>
        ensures earliest { IsEarliest self.now now below result }
    {
        first_come(&self.dues, now, below)
    }

    // Enters the deadline of a timer.
    pub(crate) fn insert(&mut self, due: Due) -> Result<(), NoMemory>
        ensures ok { OnOk result (self.new ≡ set.insert self.old due) }
        ensures err { OnErr result (self.new ≡ self.old) }
    {
        self.dues.insert(due)?;
        Ok(())
    }

    // Takes out the deadline of a timer.
    pub(crate) fn remove(&mut self, due: Due)
        ensures removed { self.new ≡ set.remove self.old due }
    {
        let _ = self.dues.remove(&due);
    }
}

// The first in order that has come and whose number is below this one. Behind the first that has
// not come none has.
fn first_come(dues: &BTreeSet<Due>, now: u64, below: u64) -> Option<u64>
    ensures first { result ≡ first_come now below dues.now.keys }
    ensures ordered { IsOrdered due_cmp dues.now }
{
    for due in dues.iter() {
        if due.deadline > now {
            return None;
        }
        if due.timer < below {
            return Some(due.timer);
        }
    }
    None
}
