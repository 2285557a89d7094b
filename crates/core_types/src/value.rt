//! What a key holds.

use crate::{Blob, HashBody, ListBody};
use std::mem::size_of;
use type_ids::TypeName;

// A value is no wider than its byte string and a tag.
const _: () = prove!(size_of::<Value<u64>>() == 32);

const _: () = prove!(size_of::<Value<Blob>>() == 32);

/// The type of a value.
#[derive(Clone, Copy, Debug, PartialEq, Eq)]
pub enum Kind {
    /// A string.
    Str,
    /// A list.
    List,
    /// A hash.
    Hash,
    /// A value of a module, by the name of its type.
    Native(TypeName),
}

/// A value, where `N` is what stands for the values of modules.
#[derive(Debug, Drop)]
pub enum Value<N> {
    /// A string.
    Str(Blob),
    /// A list.
    List(ListBody),
    /// A hash.
    Hash(HashBody),
    /// A value of a module.
    Native(N),
}
