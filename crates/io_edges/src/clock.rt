//! What tells the time.

ghost use Rattle.std.specs.Prelude.{[], ◌∷◌};
ghost use Rattle.io_edges.specs.Told.{ClockTold, Gave, CountsAtMostOne};

/// A clock that is read in milliseconds. A reading may be below an earlier one.
pub trait Clock {
    /// The readings that it has given, where it tells them, and how often it has failed. The count
    /// never falls, and stands still at the end of 64 bits.
    ghost told: { Self → ClockTold };

    /// The milliseconds since 1970. It always answers; where the clock behind it failed, that is
    /// counted.
    fn now(&mut self) -> u64
        ensures given { Gave (result ∷ []) (told self.old) (told self.new) }
        ensures cause { CountsAtMostOne (told self.old).faults (told self.new).faults };
}
