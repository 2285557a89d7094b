//! The deadlines that can still come, in order.

ghost use Rattle.std.specs.Prelude.{◌≡◌, OnOk, OnErr};
ghost use Rattle.std.specs.FinSet as set;
ghost use Rattle.blocked_tickets.specs.inner.Earliest.{IsEarliest};
ghost use Rattle.blocked_tickets.specs.inner.Entering.{with_deadline, without_deadline};

use sequences::NoMemory;
use std::alloc::Global;
use std::collections::BTreeSet;
use std::marker::Model;

/// A deadline and its ticket. They are ordered by deadline, and then by number.
#[derive(Clone, Copy, Debug, PartialEq, Eq, PartialOrd, Ord)]
pub(crate) struct Due {
    /// The moment in milliseconds.
    pub deadline: u64,
    /// The number of the ticket.
    pub ticket: u64,
}

/// The deadlines of the Waiting tickets that have no payload. Every call is O(log n); only `insert`
/// takes memory.
#[derive(Debug, Drop)]
pub(crate) struct Deadlines {
    dues: BTreeSet<Due>,
}

impl Model for Deadlines {
    ghost use Rattle.std.specs.FinSet.{FinSet, from_list, code};
    ghost use Rattle.blocked_tickets.specs.Due.{due_cmp, coded_due};

    ghost Value = { FinSet due_cmp };

    ghost coded = { code coded_due };

    ghost view = { λ d. from_list d.dues.keys };
}

impl Deadlines {
    pub(crate) fn new(alloc: Global) -> Deadlines
        ensures empty { result ≡ set.empty }
    {
        Deadlines {
            dues: BTreeSet::new(alloc),
        }
    }

    // The earliest, or `None` where there is none.
    pub(crate) fn first(&self) -> Option<Due>
        ensures earliest { IsEarliest self.now result }
    {
        self.dues.first().copied()
    }

    // Enters the deadline of a ticket, where it has one.
    pub(crate) fn insert(&mut self, ticket: u64, deadline: Option<u64>) -> Result<(), NoMemory>
        ensures ok { OnOk result (self.new ≡ with_deadline self.old ticket deadline) }
        ensures err { OnErr result (self.new ≡ self.old) }
    {
        if let Some(deadline) = deadline {
            self.dues.insert(Due { deadline, ticket })?;
        }
        Ok(())
    }

    // Takes out the deadline of a ticket, where it has one.
    pub(crate) fn remove(&mut self, ticket: u64, deadline: Option<u64>)
        ensures removed { self.new ≡ without_deadline self.old ticket deadline }
    {
        if let Some(deadline) = deadline {
            let _ = self.dues.remove(&Due { deadline, ticket });
        }
    }
}
