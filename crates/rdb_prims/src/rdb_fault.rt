//! Why something of a file was not read.

ghost use Rattle.std.specs.Prelude.{◌≡◌};
ghost use Rattle.core_types.specs.declared.stop.Stop.TheVariants as stop;
ghost use Rattle.rdb_prims.specs.declared.rdb_fault.RdbStop.TheVariants as stops;

use core_types::{NoMemory, RdbCause, Stop};

/// The first place of a file that is wrong, or its end where a byte is missing, and why.
#[derive(Clone, Copy, Debug, PartialEq, Eq)]
pub struct RdbFault {
    /// The place, counted from the file's first byte.
    pub offset: u64,
    /// What is wrong there.
    pub cause: RdbCause,
}

/// Why a call that reads a file gave up.
#[derive(Clone, Copy, Debug, PartialEq, Eq)]
pub enum RdbStop {
    /// The file has a fault.
    Refused(RdbFault),
    /// Memory ran out, or a counter stands at its end.
    Stopped(Stop),
}

impl From<RdbFault> for RdbStop {
    ghost from_gives = { λ fault end. end ≡ stops.Refused fault };

    fn from(fault: RdbFault) -> RdbStop {
        RdbStop::Refused(fault)
    }
}

impl From<NoMemory> for RdbStop {
    ghost from_gives = { λ _ end. end ≡ stops.Stopped stop.Memory };

    fn from(_: NoMemory) -> RdbStop {
        RdbStop::Stopped(Stop::Memory)
    }
}

impl From<Stop> for RdbStop {
    ghost from_gives = { λ why end. end ≡ stops.Stopped why };

    fn from(why: Stop) -> RdbStop {
        RdbStop::Stopped(why)
    }
}
