//! The timers, and each step on them.

ghost use Rattle.std.specs.Prelude.{◌≡◌, ℕ, ◌<◌, IsSome, IfOk, OnOk, OnErr};
ghost use Rattle.std.specs.Option.{option_map};
ghost use Rattle.std.specs.FinMap as map;
ghost use Rattle.module_timers.specs.Outcomes.{StartCause};
ghost use Rattle.module_timers.specs.TimerTable.{no_timers, timer_at, is_of, started, stopped};
ghost use Rattle.module_timers.specs.TimerTable.{without, due_at};

use crate::dues::{Due, Dues};
use crate::table::Table;
use crate::{Timer, TimerFault};
use sequences::{Blob, NoMemory, Sequence};
use std::alloc::Global;
use std::marker::Model;

// The most timers that are set at one time.
const MOST: usize = 65_536;

/// The timers that are set, by number.
pub type TimerList = Sequence<(u64, Timer)>;

/// The timers that are set.
#[derive(Debug, Drop)]
pub struct Timers {
    timers: Table,
    dues: Dues,
    next: u64,
}

impl Model for Timers {
    ghost use Rattle.module_timers.specs.TimerTable.{TimerTable, coded_table};
    ghost use Rattle.module_timers.specs.inner.Indexed.{Indexed, table_of};

    ghost Value = { TimerTable };

    ghost coded = { coded_table };

    ghost view = { λ t. table_of t.timers t.next };

    ghost invariant = { λ t. Indexed t.dues (table_of t.timers t.next) };
}

impl Timers {
    /// No timers; the next number is 1. Takes no memory.
    pub fn new(alloc: Global) -> Timers
        ensures empty { result ≡ no_timers }
    {
        Timers {
            timers: Table::new(alloc),
            dues: Dues::new(alloc),
            next: 1,
        }
    }

    /// Sets a timer, and gives its number. `Full` comes exactly where 65,536 timers are set, else
    /// `NumbersSpent` exactly where the next number is 2^64 - 1.
    pub fn start(&mut self, place: u16, deadline: u64, parcel: Blob) -> Result<u64, TimerFault>
        ensures number { IfOk result (λ number. number ≡ self.old.next) }
        ensures started { OnOk result (self.new
            ≡ started self.old (record { place = place; deadline = deadline; parcel = parcel })) }
        ensures cause { StartCause self.old result }
        ensures err { OnErr result (self.new ≡ self.old) }
    {
        if self.timers.len() >= MOST {
            return Err(TimerFault::Full);
        }
        let timer = self.next;
        if timer == u64::MAX {
            return Err(TimerFault::NumbersSpent);
        }
        let due = Due { deadline, timer };
        if self.dues.insert(due).is_err() {
            return Err(TimerFault::Memory);
        }
        let set = Timer {
            place,
            deadline,
            parcel,
        };
        if self.timers.insert(timer, set).is_err() {
            self.dues.remove(due);
            return Err(TimerFault::Memory);
        }
        self.next += 1;
        Ok(timer)
    }

    /// Stops a timer, where it is set and of the module at this place, and says whether it did.
    pub fn stop(&mut self, place: u16, timer: u64) -> bool
        ensures is_its_own { result ≡ is_of self.old place timer }
        ensures stopped { self.new ≡ stopped self.old place timer }
    {
        match self.timers.get(timer) {
            Some(set) if set.place == place => {
                let _ = self.take(timer);
                true
            }
            _ => false,
        }
    }

    /// The timer that fires now, or `None` where none does: of the timers whose number is below
    /// `below` and whose deadline is at most `now`, the one of the least deadline, then of the
    /// least number.
    pub fn due(&self, now: u64, below: u64) -> Option<u64>
        ensures due { result ≡ due_at self.now now below }
    {
        self.dues.first(now, below)
    }

    /// Takes out a timer, and gives the place of its module and its parcel, or `None` where it is
    /// not set.
    pub fn take(&mut self, timer: u64) -> Option<(u16, Blob)>
        ensures timer { result ≡ option_map (λ t. (t.place, t.parcel)) (timer_at self.old timer) }
        ensures taken { self.new ≡ without self.old timer }
    {
        match self.timers.remove(timer) {
            Some(set) => {
                self.dues.remove(Due {
                    deadline: set.deadline,
                    timer,
                });
                Some((set.place, set.parcel))
            }
            None => None,
        }
    }

    /// The number that the next timer gets. It is above those of all timers that are set.
    pub fn next(&self) -> u64
        ensures number { result ≡ self.now.next }
        ensures above { (n : ℕ) → IsSome (timer_at self.now n) → n < self.now.next }
    {
        self.next
    }

    /// A copy of the timers that are set, by number.
    pub fn held(&self, alloc: Global) -> Result<TimerList, NoMemory>
        ensures timers { IfOk result (λ list. list ≡ map.entries self.now.timers) }
    {
        Ok(Sequence::from_vec(self.timers.copy(alloc)?))
    }
}
