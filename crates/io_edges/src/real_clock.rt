//! The clock of the system.

ghost use Rattle.std.specs.Prelude.{◌≡◌, IfOk, IsErr, None};
ghost use Rattle.std.specs.Duration.{as_nanos};
ghost use Rattle.io_edges.specs.inner.Answers.{milliseconds, read_as, failed_once};

use crate::Clock;
use std::marker::Model;
use std::time::Duration;
use std::{io, rt};

/// The clock of the system, seen as its last reading and the number of its faults. Where the
/// system's clock fails it gives its last reading again, at first 0. It tells no readings.
#[derive(Drop)]
pub struct RealClock<R: rt::Clock> {
    rt: R,
    last: u64,
    faults: u64,
}

impl<R: rt::Clock> Model for RealClock<R> {
    ghost use Rattle.io_edges.specs.Real.{LastReading};

    ghost Value = { LastReading };

    ghost view = { λ c. record { last = c.last; faults = c.faults } };
}

impl<R: rt::Clock + Drop> RealClock<R> {
    /// A clock that was not read yet.
    pub fn new(rt: R) -> RealClock<R>
        ensures unread { result ≡ record { last = 0; faults = 0 } }
    {
        RealClock {
            rt,
            last: 0,
            faults: 0,
        }
    }

    // The reading that the system's answer gives.
    fn read(&mut self, answer: io::Result<Duration>) -> u64
        ensures reading { IfOk answer (λ time.
            self.new ≡ read_as (milliseconds (as_nanos time)) self.old) }
        ensures again { IsErr answer → self.new ≡ failed_once self.old }
        ensures last { result ≡ self.new.last }
    {
        match answer {
            Ok(time) => self.last = whole_milliseconds(time),
            Err(_) => self.faults = self.faults.saturating_add(1),
        }
        self.last
    }
}

impl<R: rt::Clock + Drop> Clock for RealClock<R> {
    ghost told = { λ c. record { given = None; faults = c.faults } };

    fn now(&mut self) -> u64 {
        let answer = self.rt.since_1970();
        self.read(answer)
    }
}

fn whole_milliseconds(time: Duration) -> u64
    ensures { result ≡ milliseconds (as_nanos time) }
{
    u64::try_from(time.as_millis()).unwrap_or(u64::MAX)
}
