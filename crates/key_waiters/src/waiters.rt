//! The tickets that wait on keys, and each step on them.

ghost use Rattle.std.specs.Prelude.{◌≡◌, ℕ, ◌<◌, IsSome, OnOk, OnErr};
ghost use Rattle.std.specs.Option.{option_copied};
ghost use Rattle.key_waiters.specs.Waiting.{nobody_waits, key_at, with_waiter, without, first_at};

use crate::lines::Lines;
use crate::table::Table;
use sequences::{Blob, NoMemory};
use std::alloc::Global;
use std::marker::Model;

/// The tickets that wait, each on a key.
#[derive(Debug, Drop)]
pub struct Waiters {
    table: Table,
    lines: Lines,
    alloc: Global,
}

impl Model for Waiters {
    ghost use Rattle.key_waiters.specs.Waiting.{Waiting, coded_waiting};
    ghost use Rattle.key_waiters.specs.inner.Lines.{Agree};

    ghost Value = { Waiting };

    ghost coded = { coded_waiting };

    ghost view = { λ w. w.table };

    ghost invariant = { λ w. Agree w.table w.lines };
}

impl Waiters {
    /// Nobody waits. Takes no memory.
    pub fn new(alloc: Global) -> Waiters
        ensures empty { result ≡ nobody_waits }
    {
        Waiters {
            table: Table::new(alloc),
            lines: Lines::new(alloc),
            alloc,
        }
    }

    /// Lets a ticket wait on a key. Its number must be above those of all that wait. An `Err`
    /// changes nothing.
    pub fn wait(&mut self, ticket: u64, key: &[u8]) -> Result<(), NoMemory>
        requires above { (n : ℕ) → IsSome (key_at self.old n) → n < ticket }
        ensures ok { OnOk result (self.new ≡ with_waiter self.old ticket key.now) }
        ensures err { OnErr result (self.new ≡ self.old) }
    {
        let copy = Blob::from_slice(self.alloc, key)?;
        self.lines.insert(self.alloc, key, ticket)?;
        let entered = self.table.insert(ticket, copy);
        if entered.is_err() {
            self.lines.remove(key, ticket);
        }
        entered
    }

    /// The key that a ticket waits on, or `None` where it does not wait.
    pub fn key_of(&self, ticket: u64) -> Option<&Blob>
        ensures key { option_copied result ≡ key_at self.now ticket }
    {
        self.table.get(ticket)
    }

    /// Of the tickets that wait on a key and are above a number, the one that began to wait first,
    /// which is the one of the least number; `None` where there is none.
    pub fn first(&self, key: &[u8], above: u64) -> Option<u64>
        ensures first { result ≡ first_at self.now key.now above }
    {
        self.lines.first(key, above)
    }

    /// Ends the wait of a ticket, where it waits.
    pub fn leave(&mut self, ticket: u64)
        ensures left { self.new ≡ without self.old ticket }
    {
        match self.table.remove(ticket) {
            Some(key) => self.lines.remove(key.as_slice(), ticket),
            None => {}
        }
    }
}
