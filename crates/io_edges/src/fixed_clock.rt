//! A clock in memory, which tells the readings that it has given.

ghost use Rattle.std.specs.Prelude.{◌≡◌, ◌<◌, ◌^◌, IfOk};
ghost use Rattle.sequences.specs.Causes.{one_more};
ghost use Rattle.io_edges.specs.Memory.{reading_at, clock_telling};

use crate::Clock;
use sequences::NoMemory;
use std::alloc::Global;
use std::marker::Model;

/// A clock of the readings that it was made with: it gives them in order, and then the last one
/// again. Where there is none it gives 0.
#[derive(Debug, Drop)]
pub struct FixedClock {
    readings: Vec<u64>,
    calls: u64,
}

impl Model for FixedClock {
    ghost use Rattle.io_edges.specs.Memory.{Fixed};

    ghost Value = { Fixed };

    ghost view = { λ c. record { readings = c.readings.items; calls = c.calls } };
}

impl FixedClock {
    /// A clock of these readings, which has given none.
    pub fn new(alloc: Global, readings: &[u64]) -> Result<FixedClock, NoMemory>
        ensures unread { IfOk result (λ clock.
            clock ≡ record { readings = readings.now; calls = 0 }) }
    {
        Ok(FixedClock {
            readings: Vec::from_slice(alloc, readings)?,
            calls: 0,
        })
    }

    // The next reading. The place moves on by one.
    fn next(&mut self) -> u64
        ensures reading { result ≡ reading_at self.old.readings self.old.calls }
        ensures moved { self.new ≡ record self.old { calls = one_more self.old.calls } }
        ensures few { self.old.calls < 2 ^ 64 }
    {
        let reading = self.at(self.calls as usize);
        self.calls = self.calls.saturating_add(1);
        reading
    }

    // The reading of a place.
    fn at(&self, place: usize) -> u64
        ensures reading { result ≡ reading_at self.now.readings place }
    {
        match self.readings.get(place) {
            Some(reading) => *reading,
            None => self.readings.last().copied().unwrap_or(0),
        }
    }
}

impl Clock for FixedClock {
    ghost told = { clock_telling };

    fn now(&mut self) -> u64 {
        self.next()
    }
}
