//! Why a command was not added.

/// Why a command was not added. The registry is as it was.
#[derive(Clone, Copy, Debug, PartialEq, Eq)]
pub enum RegisterFault {
    /// A command of this name is there, whatever the case of its letters.
    Taken,
    /// 1,024 commands are there.
    TooMany,
    /// Memory ran out.
    Memory,
}
