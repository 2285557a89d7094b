//! A folder of the file system.

ghost use Rattle.std.specs.Prelude.{◌≡◌, ◌≤◌, ◌↔◌, ℕ, Ok, Err, None, IfOk, IsErr, IsErrAnd};
ghost use Rattle.std.specs.IoError.{error_kind};
ghost use Rattle.sequences.specs.Causes.{one_more, HasCause, HasCauseFor};
ghost use Rattle.disk_model.specs.declared.dir.ReadAllStop.TheVariants as stops;
ghost use Rattle.disk_model.specs.inner.RealFolder.{unlocked, or_here};

mod file;
mod files;
mod folder;
mod link;
mod synced;

use crate::{Dir, DirFault, FileName, ReadAllStop};
use folder::RealFolder;
use sequences::{Blob, NoMemory};
use std::alloc::Global;
use std::fs::File;
use std::io::{self, ErrorKind};
use std::marker::Model;
use std::path::PathBuf;
use std::rt::Files;

/// A folder of the file system, seen as the number of its faults. It tells no content.
///
/// From its first call on it holds a lock on the folder, until it is dropped. Where another process
/// holds that, each call is a fault, and touches nothing.
#[derive(Drop)]
pub struct RealDir<R: Files> {
    rt: R,
    folder: RealFolder,
    faults: u64,
}

impl<R: Files> Model for RealDir<R> {
    ghost Value = { ℕ };

    ghost view = { λ d. d.faults };
}

impl<R: Files<File = File> + Drop> RealDir<R> {
    /// The folder at this path, where the empty path is the folder that the program runs in.
    /// Nothing is opened yet: a folder that is not there shows at the first call.
    pub fn new(rt: R, alloc: Global, folder: &str) -> Result<RealDir<R>, NoMemory>
        ensures no_faults { IfOk result (λ dir. dir ≡ 0) }
    {
        let folder = folder_at(alloc, folder)?;
        Ok(RealDir {
            rt,
            folder,
            faults: 0,
        })
    }

    // Counts a fault where the call has failed, and there only.
    fn counted(&mut self, done: io::Result<()>) -> Result<(), DirFault>
        ensures fails { IsErr result ↔ IsErr done }
        ensures cause { HasCause self.old self.new result }
    {
        match done {
            Ok(()) => Ok(()),
            Err(_) => Err(self.fault()),
        }
    }

    // Counts a fault where the read has failed, unless memory ran out.
    fn counted_read(&mut self, read: io::Result<Option<Blob>>) -> Result<Option<Blob>, ReadAllStop>
        ensures found { IfOk read (λ found. result ≡ Ok found) }
        ensures fails { IsErr result ↔ IsErr read }
        ensures memory { (result ≡ Err stops.Memory)
            ↔ IsErrAnd read (λ error. error_kind error ≡ ErrorKind.OutOfMemory) }
        ensures cause { HasCauseFor stops.Dir self.old self.new result }
    {
        match read {
            Ok(found) => Ok(found),
            Err(error) if error.kind() == ErrorKind::OutOfMemory => Err(ReadAllStop::Memory),
            Err(_) => Err(ReadAllStop::from(self.fault())),
        }
    }

    // Counts a fault.
    fn fault(&mut self) -> DirFault
        ensures counted { self.new ≡ one_more self.old }
        ensures later { self.old ≤ self.new }
    {
        self.faults = self.faults.saturating_add(1);
        DirFault
    }
}

// The folder at this path, where the empty path is the folder that the program runs in.
fn folder_at(alloc: Global, path: &str) -> Result<RealFolder, NoMemory>
    ensures unlocked { IfOk result (λ folder. folder ≡ unlocked (or_here path.now)) }
{
    let path = if path.is_empty() { "." } else { path };
    RealFolder::new(alloc, PathBuf::from_str(alloc, path)?)
}

impl<R: Files<File = File> + Drop> Dir for RealDir<R> {
    ghost told = { λ faults. record { past = None; faults = faults } };

    fn read_all(&mut self, alloc: Global, name: FileName) -> Result<Option<Blob>, ReadAllStop> {
        let read = self.folder.read_all(&self.rt, alloc, name);
        self.counted_read(read)
    }

    fn append(&mut self, name: FileName, bytes: &[u8]) -> Result<(), DirFault> {
        let done = self.folder.append(&self.rt, name, bytes);
        self.counted(done)
    }

    fn cut(&mut self, name: FileName, length: u64) -> Result<(), DirFault> {
        let done = self.folder.cut(&self.rt, name, length);
        self.counted(done)
    }

    fn sync(&mut self, name: FileName) -> Result<(), DirFault> {
        let done = self.folder.sync(&self.rt, name);
        self.counted(done)
    }

    fn create(&mut self, name: FileName) -> Result<(), DirFault> {
        let done = self.folder.create(&self.rt, name);
        self.counted(done)
    }

    fn rename(&mut self, from: FileName, to: FileName) -> Result<(), DirFault> {
        let done = self.folder.rename(&self.rt, from, to);
        self.counted(done)
    }

    fn sync_names(&mut self) -> Result<(), DirFault> {
        let done = self.folder.sync_names(&self.rt);
        self.counted(done)
    }
}
