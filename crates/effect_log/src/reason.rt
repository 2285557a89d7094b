//! Why a log is refused.

use core_types::{BadRequest, RdbCause};

/// Why a log is refused, by its first fault.
#[derive(Clone, Copy, Debug, PartialEq, Eq)]
pub enum Reason {
    /// A request that is none, by RESP2. The offset is that of the byte that is wrong.
    Request(BadRequest),
    /// No request that is an array of words: another first byte than `*`, or a count of 0 or less.
    NotMultibulk,
    /// A request that is no effect.
    NotAnEffect,
    /// An effect that has no answer in the keys so far.
    EffectRefused,
    /// A MULTI between MULTI and EXEC.
    NestedMulti,
    /// An EXEC without a MULTI before it.
    LoneExec,
    /// A front or a dump that is none, by RDB version 9.
    Rdb(RdbCause),
}
