//! What a `put` gives back.

use core_types::{Blob, Value};

/// The key and the value that were to be put, where memory ran out.
#[derive(Debug, Drop)]
pub struct PutBack<N> {
    /// The key.
    pub key: Blob,
    /// The value.
    pub value: Value<N>,
}
