//! What a client is answered.

ghost use Rattle.std.specs.Prelude.{◌≡◌, map, IfOk};
ghost use Rattle.core_types.specs.Printable.{printable};

use crate::{Blob, Duplicate, Line, NoMemory, Replies};
use std::alloc::Global;

/// A reply of RESP2.
#[derive(Debug, Drop)]
pub enum Reply {
    /// A status, as `+OK`.
    Simple(Line),
    /// An error, as `-ERR syntax error`.
    Error(Line),
    /// A number.
    Int(i64),
    /// A byte string.
    Bulk(Blob),
    /// No value.
    Null,
    /// An array of replies.
    Array(Replies),
    /// No array.
    NullArray,
}

impl Reply {
    /// A status of this text, with `?` for each byte outside 0x20 to 0x7E.
    pub fn simple(alloc: Global, text: &[u8]) -> Result<Reply, NoMemory>
        ensures status { IfOk result (λ reply. reply ≡ Reply.Simple (map printable text.now)) }
    {
        Ok(Reply::Simple(Line::from_text(alloc, text)?))
    }

    /// An error of this text, with `?` for each byte outside 0x20 to 0x7E.
    pub fn error(alloc: Global, text: &[u8]) -> Result<Reply, NoMemory>
        ensures error { IfOk result (λ reply. reply ≡ Reply.Error (map printable text.now)) }
    {
        Ok(Reply::Error(Line::from_text(alloc, text)?))
    }

    /// A second reply like this one.
    pub fn copy(&self, alloc: Global) -> Result<Reply, NoMemory>
        ensures same { IfOk result (λ reply. reply ≡ self.now) }
    {
        Ok(match self {
            Reply::Simple(text) => Reply::Simple(text.copy(alloc)?),
            Reply::Error(text) => Reply::Error(text.copy(alloc)?),
            Reply::Int(n) => Reply::Int(*n),
            Reply::Bulk(bytes) => Reply::Bulk(bytes.copy(alloc)?),
            Reply::Null => Reply::Null,
            Reply::Array(replies) => Reply::Array(replies.copy(alloc)?),
            Reply::NullArray => Reply::NullArray,
        })
    }
}

impl Duplicate for Reply {
    fn duplicate(&self, alloc: Global) -> Result<Reply, NoMemory> {
        self.copy(alloc)
    }
}
