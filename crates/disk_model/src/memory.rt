//! A directory in memory that fails at the calls that it is told to fail at.

ghost use Rattle.std.specs.Prelude.{◌≡◌, ◌⊎◌, ◌≤◌, [], IfOk, OnOk, OnErr};
ghost use Rattle.std.specs.Option.{option_copied};
ghost use Rattle.sequences.specs.Causes.{HasCause, one_more};
ghost use Rattle.disk_model.specs.Choices.{chosen};
ghost use Rattle.disk_model.specs.Files.{no_files, file, with_file, HasFew};
ghost use Rattle.disk_model.specs.Images.{Leaves};
ghost use Rattle.disk_model.specs.Memory.{telling, untouched, holding, NextFails, counted, recorded, faulted, failure, Ends};
ghost use Rattle.disk_model.specs.Past.{Outcome, disk_at, files_now};
ghost use Rattle.disk_model.specs.Told.{Goes, Fails};
ghost use Rattle.disk_model.specs.inner.Recorded.{call_of};
ghost use Rattle.disk_model.specs.declared.file_name.FileName.{FileName};

mod contents;
mod deed;
mod disk;
mod record;

use crate::{Choice, Dir, DirFault, FileName, ReadAllStop};
use deed::{Asked, Came, Deed};
use record::Record;
use sequences::{Blob, NoMemory};
use std::alloc::Global;
use std::fmt;
use std::marker::Model;

/// A directory in memory, which tells its content and each call that was made on it. Of its calls
/// of `Dir`, counted from 1, those whose numbers are listed fail. A failed `append` leaves the
/// first half of its bytes, rounded down, and any other failed call changes nothing. A call that
/// finds no memory to be recorded fails too, and changes nothing.
#[derive(Drop)]
pub struct MemoryDir {
    alloc: Global,
    record: Record,
    faults: u64,
    calls: u64,
    fails: Vec<u64>,
}

impl Model for MemoryDir {
    ghost use Rattle.disk_model.specs.Memory.{Memory};

    ghost Value = { Memory };

    ghost view = { λ d. record {
      past = d.«record»;
      faults = d.faults;
      calls = d.calls;
      fails =
          d.fails.items;
    } };
}

impl fmt::Debug for MemoryDir {
    fn fmt<W: fmt::Write>(&self, f: &mut fmt::Formatter<W>) -> fmt::Result {
        f.debug_struct("MemoryDir")
            .field("calls", &self.calls)
            .field("faults", &self.faults)
            .finish_non_exhaustive()
    }
}

impl MemoryDir {
    /// No files. The calls with these numbers fail.
    pub fn new(alloc: Global, fails: &[u64]) -> Result<MemoryDir, NoMemory>
        ensures untouched { IfOk result (λ dir. dir ≡ untouched fails.now) }
        ensures files { IfOk result (λ dir. files_now dir.past ≡ no_files) }
    {
        let fails = Vec::from_slice(alloc, fails)?;
        Ok(MemoryDir {
            alloc,
            record: Record::none(alloc),
            faults: 0,
            calls: 0,
            fails,
        })
    }

    /// The same directory with a file of these bytes. Its past begins anew: all that it holds is
    /// synced.
    pub fn with_file(self, name: FileName, bytes: &[u8]) -> Result<MemoryDir, NoMemory>
        ensures file { IfOk result
            (λ dir. dir ≡ holding (with_file name bytes.now (files_now self.past)) self) }
        ensures files { IfOk result
            (λ dir. files_now dir.past ≡ with_file name bytes.now (files_now self.past)) }
    {
        let bytes = Blob::from_slice(self.alloc, bytes)?;
        let MemoryDir {
            alloc,
            record,
            faults,
            calls,
            fails,
        } = self;
        Ok(MemoryDir {
            alloc,
            record: record.with_file(alloc, name, bytes)?,
            faults,
            calls,
            fails,
        })
    }

    /// The bytes of a file, or `None` where it is not there.
    pub fn content(&self, name: FileName) -> Option<&[u8]>
        ensures bytes { option_copied result ≡ file name (files_now self.now.past) }
    {
        self.record.get(name).map(|bytes| bytes.as_slice())
    }

    /// A directory that a crash may leave: at the moment that the choice names, with as much of
    /// what was not synced then as it says. All of it is synced there, nothing has failed, and no
    /// call is to fail.
    pub fn image(&self, choice: Choice) -> Result<MemoryDir, NoMemory>
        ensures chosen { IfOk result
            (λ dir. dir ≡ holding (chosen choice self.now.past) (untouched [])) }
        ensures files { IfOk result (λ dir. files_now dir.past ≡ chosen choice self.now.past) }
        ensures allowed { IfOk result (λ dir.
            Leaves (disk_at self.now.past choice.since) (files_now dir.past)) }
    {
        let record = self.record.image(self.alloc, choice)?;
        Ok(MemoryDir {
            alloc: self.alloc,
            record,
            faults: 0,
            calls: 0,
            fails: Vec::new(self.alloc),
        })
    }

    // The bytes of a file a second time, or `None` where it is not there.
    fn copy(&self, alloc: Global, name: FileName) -> Result<Option<Blob>, NoMemory>
        ensures bytes { IfOk result (λ found. found ≡ file name (files_now self.now.past)) }
    {
        match self.record.get(name) {
            Some(bytes) => Ok(Some(bytes.copy(alloc)?)),
            None => Ok(None),
        }
    }

    // Makes a call, which fails where it is listed.
    fn call(&mut self, asked: Asked) -> Result<(), DirFault>
        ensures ends { Ends (call_of asked) self.old result self.new }
        ensures done { OnOk result
            (Goes (call_of asked) Outcome.Done (telling self.old) (telling self.new)) }
        ensures failed { OnErr result
            (Fails (call_of asked) (telling self.old) (telling self.new)) }
        ensures small { (name : FileName) → HasFew (file name (files_now self.new.past)) }
        ensures cause { HasCause self.old.faults self.new.faults result }
    {
        self.calls = self.calls.saturating_add(1);
        if self.fails.contains(&self.calls) {
            Err(self.refuse(asked))
        } else {
            self.serve(asked)
        }
    }

    // Does a call. Where it finds no memory this is a fault, and nothing is done.
    fn serve(&mut self, asked: Asked) -> Result<(), DirFault>
        ensures ok { OnOk result (self.new ≡ recorded (call_of asked) Outcome.Done self.old) }
        ensures err { OnErr result (self.new ≡ faulted self.old) }
        ensures small { (name : FileName) → HasFew (file name (files_now self.new.past)) }
        ensures cause { HasCause self.old.faults self.new.faults result }
    {
        let came = Came::Done;
        let made = self.record.make(self.alloc, Deed { asked, came });
        self.record.is_small();
        match made {
            Ok(()) => Ok(()),
            Err(_) => Err(self.fault()),
        }
    }

    // Lets a call fail. Where it finds no memory nothing of it is done.
    fn refuse(&mut self, asked: Asked) -> DirFault
        ensures failed { (self.new
            ≡ faulted (recorded (call_of asked) (failure (call_of asked)) self.old))
            ⊎ (self.new ≡ faulted self.old) }
        ensures small { (name : FileName) → HasFew (file name (files_now self.new.past)) }
        ensures later { self.old.faults ≤ self.new.faults }
        ensures counted { self.new.faults ≡ one_more self.old.faults }
    {
        let came = asked.failure();
        let _ = self.record.make(self.alloc, Deed { asked, came });
        self.record.is_small();
        self.fault()
    }

    // Counts a fault.
    fn fault(&mut self) -> DirFault
        ensures counted { self.new ≡ faulted self.old }
        ensures later { self.old.faults ≤ self.new.faults }
    {
        self.faults = self.faults.saturating_add(1);
        DirFault
    }
}

impl Dir for MemoryDir {
    ghost told = { telling };

    fn read_all(&mut self, alloc: Global, name: FileName) -> Result<Option<Blob>, ReadAllStop> {
        self.call(Asked::ReadAll(name))?;
        Ok(self.copy(alloc, name)?)
    }

    fn append(&mut self, name: FileName, bytes: &[u8]) -> Result<(), DirFault> {
        match Blob::from_slice(self.alloc, bytes) {
            Ok(bytes) => self.call(Asked::Append(name, bytes)),
            Err(_) => {
                self.calls = self.calls.saturating_add(1);
                Err(self.fault())
            }
        }
    }

    fn cut(&mut self, name: FileName, length: u64) -> Result<(), DirFault> {
        self.call(Asked::Cut(name, length))
    }

    fn sync(&mut self, name: FileName) -> Result<(), DirFault> {
        self.call(Asked::Sync(name))
    }

    fn create(&mut self, name: FileName) -> Result<(), DirFault> {
        self.call(Asked::Create(name))
    }

    fn rename(&mut self, from: FileName, to: FileName) -> Result<(), DirFault> {
        self.call(Asked::Rename(from, to))
    }

    fn sync_names(&mut self) -> Result<(), DirFault> {
        self.call(Asked::SyncNames)
    }
}
