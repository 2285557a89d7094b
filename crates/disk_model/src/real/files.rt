//! The four files of the folder, by name.

ghost use Rattle.std.specs.Prelude.{◌≡◌, IfOk, OnOk, OnErr};
ghost use Rattle.std.specs.Borrow.{sem};
ghost use Rattle.std.specs.Path.{path_bytes};
ghost use Rattle.disk_model.specs.inner.RealFolder.{unopened_in, all_unopened, named, moved, maybe_moved};
ghost use Rattle.disk_model.specs.inner.RealLends.{LendsFile};

use super::file::RealFile;
use super::synced::Synced;
use crate::FileName;
use sequences::NoMemory;
use std::alloc::Global;
use std::fs::File;
use std::marker::Model;
use std::path::Path;
use std::rt::Files;
use std::{fs, io};

/// Each of the four files, whether it is there or not.
#[derive(Drop)]
pub(crate) struct RealFiles {
    log: RealFile,
    log_temp: RealFile,
    dump: RealFile,
    dump_temp: RealFile,
}

impl Model for RealFiles {
    ghost use Rattle.disk_model.specs.inner.RealFolder.{RealFiles};

    ghost Value = { RealFiles };

    ghost view = { λ f. record {
      log = f.log;
      log_temp = f.log_temp;
      dump = f.dump;
      dump_temp =
          f.dump_temp;
    } };
}

impl RealFiles {
    /// The files in a folder. None is opened yet.
    pub(crate) fn new(alloc: Global, folder: Path<'_>) -> Result<RealFiles, NoMemory>
        ensures unopened { IfOk result (λ files. files ≡ all_unopened (path_bytes folder.entry)) }
    {
        let (log, log_temp) = two_files(alloc, folder, FileName::Log, FileName::LogTemp)?;
        let (dump, dump_temp) = two_files(alloc, folder, FileName::Dump, FileName::DumpTemp)?;
        Ok(RealFiles {
            log,
            log_temp,
            dump,
            dump_temp,
        })
    }

    /// The file of this name.
    pub(crate) fn get(&self, name: FileName) -> &RealFile
        ensures named { result.now ≡ named name self.now }
    {
        match name {
            FileName::Log => &self.log,
            FileName::LogTemp => &self.log_temp,
            FileName::Dump => &self.dump,
            FileName::DumpTemp => &self.dump_temp,
        }
    }

    /// The file of this name, to be changed.
    pub(crate) fn get_mut(&mut self, name: FileName) -> &mut RealFile
        ensures* writes_back { sem 𝓛 (LendsFile name self.entry result) }
        ensures named { result.now ≡ named name self.old }
    {
        match name {
            FileName::Log => &mut self.log,
            FileName::LogTemp => &mut self.log_temp,
            FileName::Dump => &mut self.dump,
            FileName::DumpTemp => &mut self.dump_temp,
        }
    }

    /// Moves a file to another name, in the place of what that had. On an `Err` this has happened
    /// or not.
    pub(crate) fn rename(
        &mut self,
        rt: &impl Files<File = File>,
        from: FileName,
        to: FileName,
    ) -> io::Result<()>
        ensures ok { OnOk result (self.new ≡ moved from to self.old) }
        ensures err { OnErr result (self.new ≡ maybe_moved from to self.old) }
    {
        let done = fs::rename(rt, self.get(from).path(), self.get(to).path());
        if done.is_ok() {
            self.note_moved(from, to);
        } else {
            self.note_maybe_moved(from, to);
        }
        done
    }

    fn note_moved(&mut self, from: FileName, to: FileName)
        ensures moved { self.new ≡ moved from to self.old }
    {
        let came = self.get(from).bytes();
        self.get_mut(from).close(Synced::No);
        self.get_mut(to).close(came);
    }

    fn note_maybe_moved(&mut self, from: FileName, to: FileName)
        ensures maybe_moved { self.new ≡ maybe_moved from to self.old }
    {
        let came = self.get(from).bytes();
        self.get_mut(from).close(came.after_change());
        let there = self.get(to).bytes();
        self.get_mut(to).close(there.or(came));
    }
}

// Two of the files in a folder. None is opened yet.
fn two_files(
    alloc: Global,
    folder: Path<'_>,
    first: FileName,
    second: FileName,
) -> Result<(RealFile, RealFile), NoMemory>
    ensures unopened { IfOk result (λ (one, other).
        (one ≡ unopened_in (path_bytes folder.entry) first)
        × (other ≡ unopened_in (path_bytes folder.entry) second)) }
{
    let one = file_in(alloc, folder, first)?;
    let other = file_in(alloc, folder, second)?;
    Ok((one, other))
}

// A file in a folder, which is not opened yet.
fn file_in(alloc: Global, folder: Path<'_>, name: FileName) -> Result<RealFile, NoMemory>
    ensures unopened { IfOk result (λ file. file ≡ unopened_in (path_bytes folder.entry) name) }
{
    Ok(RealFile::new(folder.join(alloc, name.as_str())?))
}
