//! A call of a directory in memory, as it is recorded.

ghost use Rattle.std.specs.Prelude.{◌≡◌, take};
ghost use Rattle.disk_model.specs.Memory.{failure};
ghost use Rattle.disk_model.specs.inner.Recorded.{call_of, outcome_of};

use crate::FileName;
use sequences::Blob;

/// A call that was made, and what came of it.
#[derive(Drop)]
pub(crate) struct Deed {
    pub(crate) asked: Asked,
    pub(crate) came: Came,
}

/// A call, as it was asked for.
#[derive(Drop)]
pub(crate) enum Asked {
    /// A read of a file.
    ReadAll(FileName),
    /// Bytes were to be added to a file.
    Append(FileName, Blob),
    /// A file was to be cut to a length.
    Cut(FileName, u64),
    /// A file was to be made safe.
    Sync(FileName),
    /// A name was to get a new file.
    Create(FileName),
    /// A file was to move from the first name to the second.
    Rename(FileName, FileName),
    /// The names were to be made safe.
    SyncNames,
}

/// What came of a call.
#[derive(Clone, Copy)]
pub(crate) enum Came {
    /// It was done.
    Done,
    /// It failed, and changed nothing.
    Undone,
    /// It was an append and failed, and this many of the first bytes came.
    Front(usize),
}

impl Asked {
    /// How the call fails: half of an append comes, and nothing of another.
    pub(crate) fn failure(&self) -> Came
        ensures failure { outcome_of result ≡ failure (call_of self.now) }
    {
        match self {
            Asked::Append(_, bytes) => Came::Front(bytes.len() / 2),
            _ => Came::Undone,
        }
    }
}

/// This many of the first bytes, or all of them.
pub(crate) fn front(bytes: &Blob, count: usize) -> &[u8]
    ensures front { result.now ≡ take count bytes.now }
{
    let bytes = bytes.as_slice();
    &bytes[..count.min(bytes.len())]
}
