//! Why no ticket was opened.

/// Why no ticket was opened. The tickets are as they were.
#[derive(Clone, Copy, Debug, PartialEq, Eq)]
pub enum AdmitFault {
    /// 65,536 tickets are held.
    Full,
    /// The next number is 2^64 - 1, which no ticket has.
    NumbersSpent,
    /// Memory ran out.
    Memory,
}
