//! Why a call on an opened key is refused.

ghost use Rattle.std.specs.Prelude.{◌≡◌};
ghost use Rattle.key_handle.specs.Faults.{fault_of};

use core_types::Kind;
use module_laws::MutFault;

/// Why a call on an opened key is refused.
#[derive(Clone, Copy, Debug, PartialEq, Eq)]
pub enum HandleFault {
    /// The key is open for reading.
    ReadOnly,
    /// It is not there.
    Empty,
    /// It holds this kind.
    NotOurs(Kind),
    /// Memory ran out.
    Memory,
}

/// A fault of the context's own.
impl From<MutFault> for HandleFault {
    ghost from_gives = { λ fault result. result ≡ fault_of fault };

    fn from(fault: MutFault) -> HandleFault {
        match fault {
            MutFault::NotOurs(kind) => HandleFault::NotOurs(kind),
            MutFault::Empty => HandleFault::Empty,
            MutFault::Memory => HandleFault::Memory,
        }
    }
}
