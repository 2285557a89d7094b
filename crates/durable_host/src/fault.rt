//! Why a host did not start, and why a step was not made.

ghost use Rattle.std.specs.Prelude.{◌≡◌};
ghost use Rattle.core_types.specs.declared.stop.Stop.TheVariants as stop;
ghost use Rattle.durable_host.specs.declared.fault.HostFault.TheVariants as faults;
ghost use Rattle.durable_host.specs.inner.Faults.{cause_of, fault_of};

use core_types::{Cause, NoMemory, Stop};
use disk_model::DirFault;
use restart::OpenStop;

/// Why a host was not started. The directory is handed back.
#[derive(Debug, Drop)]
pub struct StartBack<D> {
    /// Why.
    pub stop: OpenStop,
    /// The directory.
    pub dir: D,
}

/// Why a step was not made to its end.
#[derive(Clone, Copy, Debug, PartialEq, Eq)]
pub enum HostFault {
    /// The directory failed, and counted it. The host has stopped.
    Dir,
    /// Memory ran out. The host has stopped.
    Memory,
    /// A counter of 64 bits stands at its end. The host has stopped.
    NumbersSpent,
    /// The host had stopped before, for this cause.
    Stopped(Cause),
}

impl From<DirFault> for HostFault {
    ghost from_gives = { λ _ fault. fault ≡ faults.Dir };

    fn from(_: DirFault) -> HostFault {
        HostFault::Dir
    }
}

impl From<NoMemory> for HostFault {
    ghost from_gives = { λ _ fault. fault ≡ faults.Memory };

    fn from(_: NoMemory) -> HostFault {
        HostFault::Memory
    }
}

impl From<Stop> for HostFault {
    ghost from_gives = { λ stop fault. fault ≡ fault_of stop };

    fn from(stop: Stop) -> HostFault {
        match stop {
            Stop::Memory => HostFault::Memory,
            Stop::NumbersSpent => HostFault::NumbersSpent,
        }
    }
}

impl HostFault {
    // The cause that a host keeps of it.
    pub(crate) fn cause(self) -> Cause
        ensures cause { result ≡ cause_of self }
    {
        match self {
            HostFault::Dir => Cause::Dir,
            HostFault::Memory => Cause::Memory,
            HostFault::NumbersSpent => Cause::NumbersSpent,
            HostFault::Stopped(cause) => cause,
        }
    }
}
