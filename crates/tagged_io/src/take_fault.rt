//! Why a part was not taken.

use thiserror::Error;

/// The kind of a saved part.
#[derive(Clone, Copy, Debug, PartialEq, Eq)]
pub enum TaggedKind {
    /// A number of 64 bits.
    Number,
    /// A byte string.
    Bytes,
}

/// Why the next part was not taken. It stays where it is.
#[derive(Clone, Copy, Debug, PartialEq, Eq, Error)]
pub enum TakeFault {
    /// Nothing is left.
    #[error("end")]
    End,
    /// The next part is of this kind, and another was asked for.
    #[error("wrong kind")]
    WrongKind(TaggedKind),
}
