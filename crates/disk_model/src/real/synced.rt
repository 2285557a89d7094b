//! Whether a sync is owed.

ghost use Rattle.std.specs.Prelude.{◌≡◌, if◌then◌else◌, is_ok};
ghost use Rattle.disk_model.specs.inner.Synced.{after_change, either_of};

use std::io;

/// Whether what was changed is known to be on the disk.
#[derive(Clone, Copy)]
pub(crate) enum Synced {
    /// It is.
    Yes,
    /// It may not be.
    No,
    /// A sync has failed. The system may have given up what it could not write, and yet answer the
    /// next sync with success.
    Failed,
}

impl Synced {
    /// What is known after a change.
    pub(crate) fn after_change(self) -> Synced
        ensures { result ≡ after_change self }
    {
        match self {
            Synced::Yes | Synced::No => Synced::No,
            Synced::Failed => Synced::Failed,
        }
    }

    /// What is known of a file that is one of two.
    pub(crate) fn or(self, other: Synced) -> Synced
        ensures { result ≡ either_of self other }
    {
        match (self, other) {
            (Synced::Failed, _) | (_, Synced::Failed) => Synced::Failed,
            (Synced::Yes, Synced::Yes) => Synced::Yes,
            _ => Synced::No,
        }
    }

    /// What is known after a sync.
    pub(crate) fn after_sync(done: &io::Result<()>) -> Synced
        ensures { result ≡ (if is_ok done.now then Synced.Yes else Synced.Failed) }
    {
        if done.is_ok() {
            Synced::Yes
        } else {
            Synced::Failed
        }
    }
}
