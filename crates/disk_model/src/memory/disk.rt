//! A disk, for what a crash leaves of it.

ghost use Rattle.std.specs.Prelude.{◌≡◌, ◌++◌, [], ◌∷◌, ℕ, Option, Some, take, map, slice_get, IfOk, OnOk};
ghost use Rattle.std.specs.Option.{option_map, option_and_then, option_copied};
ghost use Rattle.disk_model.specs.Choices.{after_steps, chosen_of};
ghost use Rattle.disk_model.specs.Disk.{after_renames, names_now, number_of, settled, settled_disk, settled_or_empty, with_change, with_changed, made_safe, on_file, appended, created, moved, names_synced, Change as Spoken};
ghost use Rattle.disk_model.specs.Past.{done, front_of, left_by, after};
ghost use Rattle.disk_model.specs.inner.Recorded.{call_of, outcome_of, made_of};

mod names;
mod stored;

use super::contents::Contents;
use super::deed::{Asked, Came, Deed, front};
use crate::{Choice, FileName};
use names::{NameChange, Names};
use sequences::{Blob, NoMemory};
use std::alloc::Global;
use std::marker::Model;
use stored::{Change, Stored};

/// The synced names, the changes of them since, and every file that was ever made.
#[derive(Drop)]
pub(crate) struct Disk {
    names: Names,
    renames: Vec<NameChange>,
    files: Vec<Stored>,
}

impl Model for Disk {
    ghost use Rattle.disk_model.specs.Disk.{Disk};

    ghost Value = { Disk };

    ghost view = { λ d. record {
      names = d.names;
      renames = d.renames.items;
      files =
          d.files.items;
    } };
}

impl Disk {
    /// The disk that has these files, all of it synced.
    pub(crate) fn settled(alloc: Global, files: &Contents) -> Result<Disk, NoMemory>
        ensures settled { IfOk result (λ disk. disk ≡ settled_disk files.now) }
    {
        let mut stored = Vec::new(alloc);
        push_settled(&mut stored, alloc, files)?;
        Ok(Disk {
            names: Names::of(files),
            renames: Vec::new(alloc),
            files: stored,
        })
    }

    // The names after this many of the first changes.
    fn names_after(&self, kept: usize) -> Names
        ensures names { result ≡ after_renames self.now.names (take kept self.now.renames) }
    {
        let mut names = self.names;
        let kept = kept.min(self.renames.len());
        names.change_all(&self.renames[..kept]);
        names
    }

    // The names as they are.
    fn names_now(&self) -> Names
        ensures names { result ≡ names_now self.now }
    {
        let mut names = self.names;
        names.change_all(&self.renames);
        names
    }

    /// Does what came of a call.
    pub(crate) fn replay(&mut self, alloc: Global, deed: &Deed) -> Result<(), NoMemory>
        ensures changed { OnOk result
            (self.new ≡ left_by (call_of deed.now.asked) (outcome_of deed.now.came) self.old) }
    {
        match deed.came {
            Came::Done => self.make(alloc, &deed.asked),
            Came::Undone => Ok(()),
            Came::Front(count) => self.make_front(alloc, &deed.asked, count),
        }
    }

    // Does a call.
    fn make(&mut self, alloc: Global, asked: &Asked) -> Result<(), NoMemory>
        ensures changed { OnOk result (self.new ≡ done (call_of asked.now) self.old) }
    {
        match asked {
            Asked::ReadAll(_) => {}
            Asked::Append(name, bytes) => self.append(alloc, *name, bytes.as_slice())?,
            Asked::Cut(name, length) => self.change(*name, Change::cut_to(*length))?,
            Asked::Sync(name) => self.sync(*name)?,
            Asked::Create(name) => self.create(alloc, *name)?,
            Asked::Rename(from, to) => self.rename(*from, *to)?,
            Asked::SyncNames => self.sync_names(),
        }
        Ok(())
    }

    // Does a call, and of an append this many of the first bytes alone.
    fn make_front(&mut self, alloc: Global, asked: &Asked, count: usize) -> Result<(), NoMemory>
        ensures changed { OnOk result
            (self.new ≡ done (front_of count (call_of asked.now)) self.old) }
    {
        match asked {
            Asked::Append(name, bytes) => self.append(alloc, *name, front(bytes, count)),
            other => self.make(alloc, other),
        }
    }

    // Adds bytes at the end of a name's file.
    fn append(&mut self, alloc: Global, name: FileName, bytes: &[u8]) -> Result<(), NoMemory>
        ensures appended { OnOk result (self.new ≡ appended name bytes.now self.old) }
    {
        self.change(name, Change::added(Blob::from_slice(alloc, bytes)?))
    }

    // Changes the file of a name.
    fn change(&mut self, name: FileName, change: Change) -> Result<(), NoMemory>
        ensures changed { OnOk result (self.new ≡ on_file name (with_change change) self.old) }
    {
        let number = self.names_now().get(name);
        change_file(&mut self.files, number, change)
    }

    // Makes the bytes of a name's file safe.
    fn sync(&mut self, name: FileName) -> Result<(), NoMemory>
        ensures synced { OnOk result (self.new ≡ on_file name made_safe self.old) }
    {
        let number = self.names_now().get(name);
        make_file_safe(&mut self.files, number)
    }

    // Gives a name a new and empty file.
    fn create(&mut self, alloc: Global, name: FileName) -> Result<(), NoMemory>
        ensures created { OnOk result (self.new ≡ created name self.old) }
    {
        self.renames
            .push(NameChange::created(name, self.files.len()))?;
        self.files.push(Stored::settled(alloc, Blob::new(alloc)))?;
        Ok(())
    }

    // Moves a file to another name.
    fn rename(&mut self, from: FileName, to: FileName) -> Result<(), NoMemory>
        ensures moved { OnOk result (self.new ≡ moved from to self.old) }
    {
        self.renames.push(NameChange::renamed(from, to))?;
        Ok(())
    }

    // Makes the names safe.
    fn sync_names(&mut self)
        ensures synced { self.new ≡ names_synced self.old }
    {
        self.names.change_all(&self.renames);
        self.renames.clear();
    }

    /// The files that a crash leaves, where it keeps what the choice says.
    pub(crate) fn chosen(&self, alloc: Global, choice: Choice) -> Result<Contents, NoMemory>
        ensures chosen { IfOk result (λ files. files ≡ chosen_of choice self.now) }
    {
        let names = self.names_after(choice.names as usize);
        let log = names.get(FileName::Log);
        let log_temp = names.get(FileName::LogTemp);
        let dump = names.get(FileName::Dump);
        let dump_temp = names.get(FileName::DumpTemp);
        Ok(Contents::of(
            self.left(alloc, log, choice.log as usize)?,
            self.left(alloc, log_temp, choice.log_temp as usize)?,
            self.left(alloc, dump, choice.dump as usize)?,
            self.left(alloc, dump_temp, choice.dump_temp as usize)?,
        ))
    }

    // The file of this number, with this many of its first unsynced steps.
    fn left(
        &self,
        alloc: Global,
        number: Option<usize>,
        steps: usize,
    ) -> Result<Option<Blob>, NoMemory>
        ensures bytes { IfOk result
            (λ left. left ≡ option_map (λ file. after_steps steps file.synced file.changes)
            (option_and_then (λ n. slice_get self.now.files n) number)) }
    {
        let Some(number) = number else {
            return Ok(None);
        };
        match self.files.get(number) {
            Some(file) => Ok(Some(file.after_steps(alloc, steps)?)),
            None => Ok(None),
        }
    }
}

// Adds each of the files, all of it synced, or an empty one in its place.
fn push_settled(stored: &mut Vec<Stored>, alloc: Global, files: &Contents) -> Result<(), NoMemory>
    ensures settled { OnOk result
        (stored.new.items ≡ stored.old.items ++ (settled_disk files.now).files) }
{
    push_one(stored, alloc, files.get(FileName::Log))?;
    push_one(stored, alloc, files.get(FileName::LogTemp))?;
    push_one(stored, alloc, files.get(FileName::Dump))?;
    push_one(stored, alloc, files.get(FileName::DumpTemp))
}

// Adds a file of these bytes, or of none.
fn push_one(stored: &mut Vec<Stored>, alloc: Global, bytes: Option<&Blob>) -> Result<(), NoMemory>
    ensures settled { OnOk result
        (stored.new.items ≡ stored.old.items ++ settled_or_empty (option_copied bytes.entry) ∷ []) }
{
    let bytes = copy_or_empty(alloc, bytes)?;
    stored.push(Stored::settled(alloc, bytes))?;
    Ok(())
}

// The bytes a second time, or none.
fn copy_or_empty(alloc: Global, bytes: Option<&Blob>) -> Result<Blob, NoMemory>
    ensures bytes { IfOk result
        (λ copied. settled copied ≡ settled_or_empty (option_copied bytes.entry)) }
{
    match bytes {
        Some(bytes) => bytes.copy(alloc),
        None => Ok(Blob::new(alloc)),
    }
}

// Changes the file of this number, where there is one.
fn change_file(
    files: &mut Vec<Stored>,
    number: Option<usize>,
    change: Change,
) -> Result<(), NoMemory>
    ensures changed { OnOk result
        (files.new.items ≡ with_changed (with_change change) number files.old.items) }
{
    let Some(number) = number else {
        return Ok(());
    };
    if number < files.len() {
        let file = &mut files[number];
        file.add(change)?;
    }
    Ok(())
}

// Makes the bytes of the file of this number safe, where there is one.
fn make_file_safe(files: &mut Vec<Stored>, number: Option<usize>) -> Result<(), NoMemory>
    ensures safe { OnOk result (files.new.items ≡ with_changed made_safe number files.old.items) }
{
    let Some(number) = number else {
        return Ok(());
    };
    if number < files.len() {
        let file = &mut files[number];
        file.make_safe()?;
    }
    Ok(())
}

/// Does what came of each call, in order.
pub(crate) fn replay_all(disk: &mut Disk, alloc: Global, deeds: &[Deed]) -> Result<(), NoMemory>
    ensures changed { OnOk result (disk.new ≡ after disk.old (map made_of deeds.now)) }
{
    for deed in deeds {
        disk.replay(alloc, deed)?;
    }
    Ok(())
}
