//! Why a call that works on the keys gave up, and why a host has stopped.

ghost use Rattle.std.specs.Prelude.{◌≡◌};
ghost use Rattle.core_types.specs.declared.stop.Stop.TheVariants as stops;

use crate::NoMemory;

/// Why a call on the keys did not end.
#[derive(Clone, Copy, Debug, PartialEq, Eq)]
pub enum Stop {
    /// Memory ran out.
    Memory,
    /// A counter of 64 bits stands at its end.
    NumbersSpent,
}

impl From<NoMemory> for Stop {
    ghost from_gives = { λ _ stop. stop ≡ stops.Memory };

    fn from(_: NoMemory) -> Stop {
        Stop::Memory
    }
}

/// Why a host has stopped.
#[derive(Clone, Copy, Debug, PartialEq, Eq)]
pub enum Cause {
    /// The directory failed.
    Dir,
    /// Memory ran out.
    Memory,
    /// A counter of 64 bits stands at its end.
    NumbersSpent,
}
