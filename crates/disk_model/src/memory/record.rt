//! The files of a directory in memory, and each call that was made on it.

ghost use Rattle.std.specs.Prelude.{◌≡◌, [], ◌∷◌, IfOk, OnOk, OnErr};
ghost use Rattle.std.specs.Option.{option_copied};
ghost use Rattle.disk_model.specs.Files.{no_files, file, with_file, HasFew};
ghost use Rattle.disk_model.specs.Choices.{chosen};
ghost use Rattle.disk_model.specs.Memory.{begun};
ghost use Rattle.disk_model.specs.Past.{disk_at, files_now, with_calls};
ghost use Rattle.disk_model.specs.inner.Recorded.{call_of, outcome_of, made_of, effect_so};
ghost use Rattle.disk_model.specs.declared.file_name.FileName.{FileName};

use super::contents::Contents;
use super::deed::Deed;
use super::disk::{Disk, replay_all};
use crate::{Choice, FileName};
use sequences::{Blob, NoMemory};
use std::alloc::Global;
use std::marker::Model;

/// The files at first, the calls since, and what the files read as.
#[derive(Drop)]
pub(crate) struct Record {
    began: Contents,
    deeds: Vec<Deed>,
    files: Contents,
}

impl Model for Record {
    ghost use Rattle.std.specs.Prelude.{◌≡◌, map};
    ghost use Rattle.disk_model.specs.Past.{Past, files_now};
    ghost use Rattle.disk_model.specs.inner.Recorded.{made_of};

    ghost Value = { Past };

    ghost view = { λ r. record { began = r.began; made = map made_of r.deeds.items } };

    ghost invariant = { λ r. r.files
        ≡ files_now (record { began = r.began; made = map made_of r.deeds.items }) };
}

impl Record {
    /// No file, and no call yet.
    pub(crate) fn none(alloc: Global) -> Record
        ensures begun { result ≡ begun no_files }
        ensures files { files_now result ≡ no_files }
    {
        let began = Contents::none();
        let files = Contents::none();
        Record {
            began,
            deeds: Vec::new(alloc),
            files,
        }
    }

    /// These files, all of them synced, and no call yet.
    pub(crate) fn new(alloc: Global, files: Contents) -> Result<Record, NoMemory>
        ensures begun { IfOk result (λ made. made ≡ begun files) }
        ensures files { IfOk result (λ made. files_now made ≡ files) }
    {
        Ok(Record {
            began: files.copy(alloc)?,
            deeds: Vec::new(alloc),
            files,
        })
    }

    /// The bytes of a file, or `None` where it is not there.
    pub(crate) fn get(&self, name: FileName) -> Option<&Blob>
        ensures bytes { option_copied result ≡ file name (files_now self.now) }
    {
        self.files.get(name)
    }

    /// The files as they read.
    pub(crate) fn into_files(self) -> Contents
        ensures files { result ≡ files_now self }
    {
        let Record {
            began: _,
            deeds: _,
            files,
        } = self;
        files
    }

    /// Does what came of a call, and records it. Where it finds no memory it does nothing.
    pub(crate) fn make(&mut self, alloc: Global, deed: Deed) -> Result<(), NoMemory>
        ensures ok { OnOk result (self.new ≡ with_calls (made_of deed ∷ []) self.old) }
        ensures err { OnErr result (self.new ≡ self.old) }
    {
        self.deeds.reserve(1)?;
        self.files.apply(alloc, &deed)?;
        // There is room for it.
        let _ = self.deeds.push(deed);
        Ok(())
    }

    /// The files as they read with a further one, all of them synced, and no call yet.
    pub(crate) fn with_file(
        self,
        alloc: Global,
        name: FileName,
        bytes: Blob,
    ) -> Result<Record, NoMemory>
        ensures begun { IfOk result
            (λ made. made ≡ begun (with_file name bytes (files_now self))) }
        ensures files { IfOk result
            (λ made. files_now made ≡ with_file name bytes (files_now self)) }
    {
        let mut files = self.into_files();
        files.put(name, Some(bytes));
        Record::new(alloc, files)
    }

    /// What the choice leaves at its moment, all of it synced, and no call yet.
    pub(crate) fn image(&self, alloc: Global, choice: Choice) -> Result<Record, NoMemory>
        ensures begun { IfOk result (λ made. made ≡ begun (chosen choice self.now)) }
        ensures files { IfOk result (λ made. files_now made ≡ chosen choice self.now) }
    {
        Record::new(alloc, self.chosen(alloc, choice)?)
    }

    // The files that the choice leaves at its moment.
    fn chosen(&self, alloc: Global, choice: Choice) -> Result<Contents, NoMemory>
        ensures chosen { IfOk result (λ files. files ≡ chosen choice self.now) }
    {
        let disk = self.disk_at(alloc, choice.since as usize)?;
        let files = disk.chosen(alloc, choice);
        drop(disk);
        files
    }

    // The disk at a moment, or the last one.
    fn disk_at(&self, alloc: Global, moment: usize) -> Result<Disk, NoMemory>
        ensures disk { IfOk result (λ disk. disk ≡ disk_at self.now moment) }
    {
        let mut disk = Disk::settled(alloc, &self.began)?;
        let made = moment.min(self.deeds.len());
        replay_all(&mut disk, alloc, &self.deeds[..made])?;
        Ok(disk)
    }

    /// No file has more bytes than 64 bits count.
    pub(crate) fn is_small(&self)
        ensures small { (name : FileName) → HasFew (file name (files_now self.now)) }
    {
        self.files.is_small();
    }
}
