//! Why a ticket was not unblocked.

/// Why a ticket was not unblocked. The tickets are as they were.
#[derive(Clone, Copy, Debug, PartialEq, Eq)]
pub enum UnblockFault {
    /// The ticket is held and has a payload.
    Already,
    /// The ticket was issued and is held no more.
    Closed,
    /// No ticket with this number was issued.
    NeverIssued,
}
