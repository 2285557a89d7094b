//! The bytes of the four files, in memory.

ghost use Rattle.std.specs.Prelude.{◌≡◌, ◌++◌, ℕ, List, Option, Some, None, take, IfOk, OnOk, OnErr};
ghost use Rattle.std.specs.Option.{option_map, option_copied};
ghost use Rattle.disk_model.specs.Files.{no_files, file, put, with_file, with_appended, with_cut, with_moved, HasFew};
ghost use Rattle.disk_model.specs.inner.Recorded.{call_of, outcome_of, effect, effect_so};
ghost use Rattle.disk_model.specs.Past.{front_of};
ghost use Rattle.disk_model.specs.declared.file_name.FileName.{FileName};

use super::deed::{Asked, Came, Deed, front};
use crate::FileName;
use sequences::{Blob, NoMemory};
use std::alloc::Global;
use std::marker::Model;

/// The bytes of each file that is there.
#[derive(Drop)]
pub(crate) struct Contents {
    log: Option<Blob>,
    log_temp: Option<Blob>,
    dump: Option<Blob>,
    dump_temp: Option<Blob>,
}

impl Model for Contents {
    ghost use Rattle.disk_model.specs.Files.{Files};

    ghost Value = { Files };

    ghost view = { λ c. record {
      log = c.log;
      log_temp = c.log_temp;
      dump = c.dump;
      dump_temp =
          c.dump_temp;
    } };
}

impl Contents {
    /// No file.
    pub(crate) fn none() -> Contents
        ensures none { result ≡ no_files }
    {
        Contents {
            log: None,
            log_temp: None,
            dump: None,
            dump_temp: None,
        }
    }

    /// These files.
    pub(crate) fn of(
        log: Option<Blob>,
        log_temp: Option<Blob>,
        dump: Option<Blob>,
        dump_temp: Option<Blob>,
    ) -> Contents
        ensures log { result.log ≡ log }
        ensures log_temp { result.log_temp ≡ log_temp }
        ensures dump { result.dump ≡ dump }
        ensures dump_temp { result.dump_temp ≡ dump_temp }
    {
        Contents {
            log,
            log_temp,
            dump,
            dump_temp,
        }
    }

    /// The same files a second time.
    pub(crate) fn copy(&self, alloc: Global) -> Result<Contents, NoMemory>
        ensures same { IfOk result (λ copied. copied ≡ self.now) }
    {
        Ok(Contents {
            log: copy_of(alloc, &self.log)?,
            log_temp: copy_of(alloc, &self.log_temp)?,
            dump: copy_of(alloc, &self.dump)?,
            dump_temp: copy_of(alloc, &self.dump_temp)?,
        })
    }

    /// The bytes of a file, or `None` where it is not there.
    pub(crate) fn get(&self, name: FileName) -> Option<&Blob>
        ensures bytes { option_copied result ≡ file name self.now }
    {
        match name {
            FileName::Log => self.log.as_ref(),
            FileName::LogTemp => self.log_temp.as_ref(),
            FileName::Dump => self.dump.as_ref(),
            FileName::DumpTemp => self.dump_temp.as_ref(),
        }
    }

    /// Puts a file under the name, or none.
    pub(crate) fn put(&mut self, name: FileName, bytes: Option<Blob>)
        ensures bytes { self.new ≡ put name bytes self.old }
    {
        match name {
            FileName::Log => self.log = bytes,
            FileName::LogTemp => self.log_temp = bytes,
            FileName::Dump => self.dump = bytes,
            FileName::DumpTemp => self.dump_temp = bytes,
        }
    }

    /// Does what came of a call. Where an append finds no memory it does nothing.
    pub(crate) fn apply(&mut self, alloc: Global, deed: &Deed) -> Result<(), NoMemory>
        ensures ok { OnOk result
            (self.new ≡ effect_so (call_of deed.now.asked) (outcome_of deed.now.came) self.old) }
        ensures err { OnErr result (self.new ≡ self.old) }
    {
        match deed.came {
            Came::Done => self.make(alloc, &deed.asked),
            Came::Undone => Ok(()),
            Came::Front(count) => self.make_front(alloc, &deed.asked, count),
        }
    }

    // Does a call.
    fn make(&mut self, alloc: Global, asked: &Asked) -> Result<(), NoMemory>
        ensures ok { OnOk result (self.new ≡ effect (call_of asked.now) self.old) }
        ensures err { OnErr result (self.new ≡ self.old) }
    {
        match asked {
            Asked::ReadAll(_) | Asked::Sync(_) | Asked::SyncNames => {}
            Asked::Append(name, bytes) => self.push(*name, bytes.as_slice())?,
            Asked::Cut(name, length) => self.cut(*name, *length),
            Asked::Create(name) => self.put(*name, Some(Blob::new(alloc))),
            Asked::Rename(from, to) => self.rename(*from, *to),
        }
        Ok(())
    }

    // Does a call, and of an append this many of the first bytes alone.
    fn make_front(&mut self, alloc: Global, asked: &Asked, count: usize) -> Result<(), NoMemory>
        ensures ok { OnOk result (self.new ≡ effect (front_of count (call_of asked.now)) self.old) }
        ensures err { OnErr result (self.new ≡ self.old) }
    {
        match asked {
            Asked::Append(name, bytes) => self.push(*name, front(bytes, count)),
            other => self.make(alloc, other),
        }
    }

    // Adds bytes at the end of a file, where it is there.
    fn push(&mut self, name: FileName, bytes: &[u8]) -> Result<(), NoMemory>
        ensures ok { OnOk result (self.new ≡ with_appended name bytes.now self.old) }
        ensures err { OnErr result (self.new ≡ self.old) }
    {
        match name {
            FileName::Log => push_to(&mut self.log, bytes),
            FileName::LogTemp => push_to(&mut self.log_temp, bytes),
            FileName::Dump => push_to(&mut self.dump, bytes),
            FileName::DumpTemp => push_to(&mut self.dump_temp, bytes),
        }
    }

    // Keeps this many of a file's first bytes, where it is there.
    fn cut(&mut self, name: FileName, length: u64)
        ensures front { self.new ≡ with_cut name length self.old }
    {
        match name {
            FileName::Log => cut_to(&mut self.log, length),
            FileName::LogTemp => cut_to(&mut self.log_temp, length),
            FileName::Dump => cut_to(&mut self.dump, length),
            FileName::DumpTemp => cut_to(&mut self.dump_temp, length),
        }
    }

    // Moves a file to another name.
    fn rename(&mut self, from: FileName, to: FileName)
        ensures moved { self.new ≡ with_moved from to self.old }
    {
        let moved = self.take(from);
        self.put(to, moved);
    }

    // Takes a file away.
    fn take(&mut self, name: FileName) -> Option<Blob>
        ensures bytes { result ≡ file name self.old }
        ensures gone { self.new ≡ put name None self.old }
    {
        match name {
            FileName::Log => self.log.take(),
            FileName::LogTemp => self.log_temp.take(),
            FileName::Dump => self.dump.take(),
            FileName::DumpTemp => self.dump_temp.take(),
        }
    }

    /// No file has more bytes than 64 bits count.
    pub(crate) fn is_small(&self)
        ensures small { (name : FileName) → HasFew (file name self.now) }
    {
        is_small(&self.log);
        is_small(&self.log_temp);
        is_small(&self.dump);
        is_small(&self.dump_temp);
    }
}

fn copy_of(alloc: Global, file: &Option<Blob>) -> Result<Option<Blob>, NoMemory>
    ensures same { IfOk result (λ copied. copied ≡ file.now) }
{
    match file {
        Some(bytes) => Ok(Some(bytes.copy(alloc)?)),
        None => Ok(None),
    }
}

fn push_to(file: &mut Option<Blob>, bytes: &[u8]) -> Result<(), NoMemory>
    ensures ok { OnOk result (file.new ≡ option_map (λ old. old ++ bytes.now) file.old) }
    ensures err { OnErr result (file.new ≡ file.old) }
{
    match file {
        Some(old) => old.push_slice(bytes),
        None => Ok(()),
    }
}

fn cut_to(file: &mut Option<Blob>, length: u64)
    ensures front { file.new ≡ option_map (take length) file.old }
{
    if let Some(bytes) = file {
        bytes.truncate(length as usize);
    }
}

fn is_small(file: &Option<Blob>)
    ensures small { HasFew file.now }
{
    if let Some(bytes) = file {
        let _ = bytes.len();
    }
}
