//! A file of a disk: its synced bytes, and the changes since.

ghost use Rattle.std.specs.Prelude.{◌≡◌, ◌-◌, IfOk, OnOk};
ghost use Rattle.disk_model.specs.Choices.{steps_of, stepped, after_steps};
ghost use Rattle.disk_model.specs.Disk.{changed, after_changes, settled, with_change, made_safe, Change as Spoken};

use sequences::{Blob, NoMemory};
use std::alloc::Global;
use std::marker::Model;

/// A change of a file's bytes.
#[derive(Drop)]
pub(crate) struct Change {
    what: WhatChanged,
}

#[derive(Drop)]
enum WhatChanged {
    // These bytes were added at the end.
    Added(Blob),
    // Only this many bytes were kept.
    CutTo(u64),
}

impl Model for Change {
    ghost use Rattle.disk_model.specs.Disk.{Change};
    ghost use Rattle.disk_model.specs.inner.Copied.{change_told};

    ghost Value = { Change };

    ghost view = { λ c. change_told c.what };
}

impl Change {
    /// These bytes are added at the end.
    pub(crate) fn added(bytes: Blob) -> Change
        ensures added { result ≡ Spoken.Added bytes }
    {
        Change {
            what: WhatChanged::Added(bytes),
        }
    }

    /// Only this many bytes are kept.
    pub(crate) fn cut_to(length: u64) -> Change
        ensures cut { result ≡ Spoken.CutTo length }
    {
        Change {
            what: WhatChanged::CutTo(length),
        }
    }

    // Makes the change whole.
    fn apply(&self, bytes: &mut Blob) -> Result<(), NoMemory>
        ensures changed { OnOk result (bytes.new ≡ changed bytes.old self.now) }
    {
        match &self.what {
            WhatChanged::Added(more) => bytes.push_slice(more.as_slice()),
            WhatChanged::CutTo(length) => {
                bytes.truncate(*length as usize);
                Ok(())
            }
        }
    }

    // Makes this many of the first steps of the change, and answers how many are left.
    fn step(&self, bytes: &mut Blob, steps: usize) -> Result<usize, NoMemory>
        ensures stepped { OnOk result (bytes.new ≡ stepped steps bytes.old self.now) }
        ensures left { IfOk result (λ left. left ≡ steps - steps_of bytes.old self.now) }
    {
        match &self.what {
            WhatChanged::Added(more) => {
                let more = more.as_slice();
                bytes.push_slice(&more[..steps.min(more.len())])?;
                Ok(steps.saturating_sub(more.len()))
            }
            WhatChanged::CutTo(length) => {
                let length = *length as usize;
                let all = bytes.len();
                bytes.truncate(all.saturating_sub(steps).max(length));
                Ok(steps.saturating_sub(all.saturating_sub(length)))
            }
        }
    }
}

/// A file.
#[derive(Drop)]
pub(crate) struct Stored {
    synced: Blob,
    changes: Vec<Change>,
}

impl Model for Stored {
    ghost use Rattle.disk_model.specs.Disk.{Stored};

    ghost Value = { Stored };

    ghost view = { λ s. record { synced = s.synced; changes = s.changes.items } };
}

impl Stored {
    /// A file of these bytes, all of them synced.
    pub(crate) fn settled(alloc: Global, bytes: Blob) -> Stored
        ensures settled { result ≡ settled bytes }
    {
        Stored {
            synced: bytes,
            changes: Vec::new(alloc),
        }
    }

    /// Makes one change more.
    pub(crate) fn add(&mut self, change: Change) -> Result<(), NoMemory>
        ensures changed { OnOk result (self.new ≡ with_change change self.old) }
    {
        self.changes.push(change)?;
        Ok(())
    }

    /// Makes the bytes safe.
    pub(crate) fn make_safe(&mut self) -> Result<(), NoMemory>
        ensures safe { OnOk result (self.new ≡ made_safe self.old) }
    {
        change_all(&mut self.synced, &self.changes)?;
        self.changes.clear();
        Ok(())
    }

    /// The synced bytes, and this many of the first steps of the changes since.
    pub(crate) fn after_steps(&self, alloc: Global, steps: usize) -> Result<Blob, NoMemory>
        ensures bytes { IfOk result
            (λ bytes. bytes ≡ after_steps steps self.now.synced self.now.changes) }
    {
        let mut bytes = self.synced.copy(alloc)?;
        step_all(&mut bytes, &self.changes, steps)?;
        Ok(bytes)
    }
}

// Makes the changes in order.
fn change_all(bytes: &mut Blob, changes: &[Change]) -> Result<(), NoMemory>
    ensures changed { OnOk result (bytes.new ≡ after_changes bytes.old changes.now) }
{
    for change in changes {
        change.apply(bytes)?;
    }
    Ok(())
}

// Makes this many of the first steps of the changes.
fn step_all(bytes: &mut Blob, changes: &[Change], steps: usize) -> Result<(), NoMemory>
    ensures stepped { OnOk result (bytes.new ≡ after_steps steps bytes.old changes.now) }
{
    let mut left = steps;
    for change in changes {
        left = change.step(bytes, left)?;
    }
    Ok(())
}
