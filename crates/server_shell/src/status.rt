//! How a run ends.

ghost use Rattle.std.specs.Prelude.{◌≡◌};
ghost use Rattle.server_shell.specs.Faults.{status_of_fault};
ghost use Rattle.server_shell.specs.Status.{code_of};
ghost use Rattle.server_shell.specs.Stops.{status_of_stop};
ghost use Rattle.server_shell.specs.declared.status.Status.TheVariants as status;

use core_types::{BadRequest, Cause, NoMemory};
use disk_model::FileName;
use durable_host::HostFault;
use effect_log::Reason;
use io_edges::{SinkFault, SourceFault};
use restart::OpenStop;
use std::alloc::AllocError;
use std::fmt;

/// The end of a run, with what caused it.
#[derive(Clone, Copy, Debug, PartialEq, Eq)]
pub enum Status {
    /// The input was served to its end, or to QUIT.
    Done,
    /// The words are of no form: the place of the first that none allows, counted from 0, or their
    /// number where one is missing.
    Usage(u32),
    /// The file is no log: the offset of its first fault, and the reason.
    LogRefused {
        /// The file that is refused.
        file: FileName,
        /// The offset of the byte that shows it.
        offset: u64,
        /// Why.
        reason: Reason,
    },
    /// The directory failed.
    DirFault,
    /// The source failed.
    ReadFault,
    /// The sink failed.
    WriteFault,
    /// Memory ran out.
    Memory,
    /// The input goes on with what is no request: why, and the offset of the bad byte.
    Protocol(BadRequest, u64),
    /// The input ended within a request, of which this number of bytes came.
    CutOff(u64),
    /// The input goes on after 2^40 bytes.
    TooLong,
    /// A counter of 64 bits stands at its end.
    NumbersSpent,
    /// What was met is not served yet: 1 for a directory with a dump and no log.
    NotBuilt(u8),
}

/// The exit status of the process: 0 for `Done`, and a number of its own for each other end.
pub fn status_code(status: &Status) -> u8
    ensures code { result ≡ code_of status.now }
{
    match status {
        Status::Done => 0,
        Status::Usage(_) => 1,
        Status::LogRefused { .. } => 2,
        Status::DirFault => 3,
        Status::ReadFault => 4,
        Status::WriteFault => 5,
        Status::Memory => 6,
        Status::Protocol(_, _) => 7,
        Status::CutOff(_) => 8,
        Status::TooLong => 10,
        Status::NumbersSpent => 11,
        Status::NotBuilt(_) => 13,
    }
}

/// The line of a fault, as it is printed after `modhost: ` on standard error.
impl fmt::Display for Status {
    fn fmt<W: fmt::Write>(&self, f: &mut fmt::Formatter<W>) -> fmt::Result {
        match self {
            Status::Done => write!(f, "done"),
            Status::Usage(place) => write!(f, "usage at word {place}"),
            Status::LogRefused { file, offset, .. } => {
                write!(f, "log refused: {} at {offset}", file.as_str())
            }
            Status::DirFault => write!(f, "directory fault"),
            Status::ReadFault => write!(f, "read fault"),
            Status::WriteFault => write!(f, "write fault"),
            Status::Memory => write!(f, "out of memory"),
            Status::Protocol(kind, offset) => {
                write!(f, "protocol error {} at {offset}", kind.number())
            }
            Status::CutOff(count) => write!(f, "cut off after {count} bytes"),
            Status::TooLong => write!(f, "input too long"),
            Status::NumbersSpent => write!(f, "numbers spent"),
            Status::NotBuilt(what) => write!(f, "not built {what}"),
        }
    }
}

impl From<NoMemory> for Status {
    ghost from_gives = { λ _ end. end ≡ status.Memory };

    fn from(_: NoMemory) -> Status {
        Status::Memory
    }
}

impl From<AllocError> for Status {
    ghost from_gives = { λ _ end. end ≡ status.Memory };

    fn from(_: AllocError) -> Status {
        Status::Memory
    }
}

impl From<SourceFault> for Status {
    ghost from_gives = { λ _ end. end ≡ status.ReadFault };

    fn from(_: SourceFault) -> Status {
        Status::ReadFault
    }
}

impl From<SinkFault> for Status {
    ghost from_gives = { λ _ end. end ≡ status.WriteFault };

    fn from(_: SinkFault) -> Status {
        Status::WriteFault
    }
}

impl From<HostFault> for Status {
    ghost from_gives = { λ fault end. end ≡ status_of_fault fault };

    fn from(fault: HostFault) -> Status {
        match fault {
            HostFault::Dir | HostFault::Stopped(Cause::Dir) => Status::DirFault,
            HostFault::Memory | HostFault::Stopped(Cause::Memory) => Status::Memory,
            HostFault::NumbersSpent | HostFault::Stopped(Cause::NumbersSpent) => {
                Status::NumbersSpent
            }
        }
    }
}

impl From<OpenStop> for Status {
    ghost from_gives = { λ stop end. end ≡ status_of_stop stop };

    fn from(stop: OpenStop) -> Status {
        match stop {
            OpenStop::LogRefused {
                file,
                offset,
                reason,
            } => Status::LogRefused {
                file,
                offset,
                reason,
            },
            OpenStop::NotBuilt => Status::NotBuilt(1),
            OpenStop::Dir => Status::DirFault,
            // The keys count nothing that could be spent.
            OpenStop::Stopped(_) => Status::Memory,
        }
    }
}
