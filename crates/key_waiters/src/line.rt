//! The tickets that wait on one key.

ghost use Rattle.std.specs.Prelude.{◌≡◌, ◌==◌, OnOk, OnErr};
ghost use Rattle.std.specs.FinSet as set;
ghost use Rattle.key_waiters.specs.inner.Places.{IsFirstOf};

use sequences::NoMemory;
use std::alloc::Global;
use std::collections::BTreeSet;
use std::marker::Model;
use std::ops::Bound;

/// The tickets that wait on one key, by number. Every call is O(log n); only `insert` takes memory.
#[derive(Debug, Drop)]
pub(crate) struct Line {
    tickets: BTreeSet<u64>,
}

impl Model for Line {
    ghost use Rattle.std.specs.FinSet.{from_list};
    ghost use Rattle.key_waiters.specs.inner.Lines.{LineSet, coded_line};

    ghost Value = { LineSet };

    ghost coded = { coded_line };

    ghost view = { λ l. from_list l.tickets.keys };
}

impl Line {
    pub(crate) fn new(alloc: Global) -> Line
        ensures empty { result ≡ set.empty }
    {
        Line {
            tickets: BTreeSet::new(alloc),
        }
    }

    pub(crate) fn insert(&mut self, ticket: u64) -> Result<(), NoMemory>
        ensures ok { OnOk result (self.new ≡ set.insert self.old ticket) }
        ensures err { OnErr result (self.new ≡ self.old) }
    {
        self.tickets.insert(ticket)?;
        Ok(())
    }

    pub(crate) fn remove(&mut self, ticket: u64)
        ensures removed { self.new ≡ set.remove self.old ticket }
    {
        let _ = self.tickets.remove(&ticket);
    }

    pub(crate) fn is_empty(&self) -> bool
        ensures empty { result ≡ (set.len self.now == 0) }
    {
        self.tickets.len() == 0
    }

    // The first above a number, or `None` where there is none.
    pub(crate) fn first(&self, above: u64) -> Option<u64>
        ensures first { IsFirstOf (set.contains self.now) above result }
    {
        let later = (Bound::Excluded(above), Bound::Unbounded);
        self.tickets.range(later).next().copied()
    }
}
