//! The folder: its lock, and what is owed of its names and of its files.
//!
//! Each call first locks the folder, where that was not done yet, and touches nothing where it
//! fails. The clauses say what is known after each outcome: which handles are left, and what is
//! owed. No clause speaks of what the system does. So tests alone show that each call asks it for
//! what the call's name says, of the path of the file that was named, and that `RealDir` passes the
//! names on.

ghost use Rattle.std.specs.Prelude.{◌≡◌, ◌≢◌, ◌⊎◌, true, IfOk, IsOk, IsErr, OnOk, OnErr};
ghost use Rattle.std.specs.Path.{path_buf_bytes};
ghost use Rattle.disk_model.specs.inner.Synced.{after_change};
ghost use Rattle.disk_model.specs.inner.RealFolder.{unlocked, locked, file, put, after, after_names, with_names, closed, changed, synced, moved, maybe_moved, Untouched, FailsAt};

use super::files::RealFiles;
use super::link::open_home;
use super::synced::Synced;
use crate::FileName;
use sequences::{Blob, NoMemory};
use std::alloc::Global;
use std::fs::File;
use std::io::{self, ErrorKind};
use std::marker::Model;
use std::path::PathBuf;
use std::rt::Files;

/// A folder by its path, with a handle by which it is locked from the first call on.
#[derive(Drop)]
pub(crate) struct RealFolder {
    alloc: Global,
    path: PathBuf,
    lock: Option<File>,
    names: Synced,
    files: RealFiles,
}

impl Model for RealFolder {
    ghost use Rattle.std.specs.Prelude.{is_some};
    ghost use Rattle.disk_model.specs.inner.RealFolder.{RealFolder};

    ghost Value = { RealFolder };

    ghost view = { λ f. record { is_locked = is_some f.lock; names = f.names; files = f.files } };
}

impl RealFolder {
    /// The folder at this path. An earlier run may have left its names unsynced.
    pub(crate) fn new(alloc: Global, path: PathBuf) -> Result<RealFolder, NoMemory>
        ensures unlocked { IfOk result (λ folder. folder ≡ unlocked (path_buf_bytes path)) }
    {
        let files = RealFiles::new(alloc, path.as_path())?;
        Ok(RealFolder {
            alloc,
            path,
            lock: None,
            names: Synced::No,
            files,
        })
    }

    /// All bytes of a file, or `None` where the folder can be read and the file is not in it.
    pub(crate) fn read_all(
        &mut self,
        rt: &impl Files<File = File>,
        alloc: Global,
        name: FileName,
    ) -> io::Result<Option<Blob>>
        ensures ok { OnOk result (self.new ≡ locked self.old) }
        ensures err { OnErr result (FailsAt (locked self.old) self.old self.new) }
    {
        self.lock(rt)?;
        let found = self.files.get(name).read_all(rt, alloc)?;
        if found.is_none() {
            let _ = self.open(rt)?;
        }
        Ok(found)
    }

    /// Adds all of the bytes at the end of a file. On an `Err` a front of them may stand there.
    pub(crate) fn append(
        &mut self,
        rt: &impl Files<File = File>,
        name: FileName,
        bytes: &[u8],
    ) -> io::Result<()>
        ensures ok { OnOk result (self.new ≡ after name (changed true) self.old) }
        ensures err { OnErr result
            (FailsAt (after name (changed
            (file name self.new).is_open) self.old) self.old self.new) }
    {
        self.lock(rt)?;
        self.files.get_mut(name).append(rt, bytes)
    }

    /// Keeps this many of a file's first bytes. On an `Err` this has happened or not.
    pub(crate) fn cut(
        &mut self,
        rt: &impl Files<File = File>,
        name: FileName,
        length: u64,
    ) -> io::Result<()>
        ensures ok { OnOk result (self.new ≡ after name (changed true) self.old) }
        ensures err { OnErr result
            (FailsAt (after name (changed
            (file name self.new).is_open) self.old) self.old self.new) }
    {
        self.lock(rt)?;
        self.files.get_mut(name).cut(rt, length)
    }

    /// Makes the bytes of a file safe from a crash.
    pub(crate) fn sync(&mut self, rt: &impl Files<File = File>, name: FileName) -> io::Result<()>
        ensures ok { OnOk result
            (self.new ≡ after name (synced (file name self.new).is_open Synced.Yes) self.old) }
        ensures err { OnErr result (let left = file name self.new in
            FailsAt (after name (synced left.is_open left.bytes) self.old) self.old self.new) }
        ensures failed { (file name self.old).bytes ≡ Synced.Failed
            → IsErr result × ((file name self.new).bytes ≡ Synced.Failed) }
        ensures owed { OnErr result
            (Untouched self.old self.new ⊎ ((file name self.new).bytes ≢ Synced.Yes)) }
        ensures nothing_owed { (file name self.old).bytes ≡ Synced.Yes
            → IsOk result ⊎ Untouched self.old self.new }
    {
        self.lock(rt)?;
        self.files.get_mut(name).sync(rt)
    }

    /// Gives the name a new and empty file. On an `Err` this has happened or not.
    pub(crate) fn create(&mut self, rt: &impl Files<File = File>, name: FileName) -> io::Result<()>
        ensures ok { OnOk result (let made = closed Synced.Yes (file name self.old) in
            self.new ≡ after_names (put name made self.old.files) self.old) }
        ensures err { OnErr result
            (let left = closed (file name self.new).bytes (file name self.old) in
            FailsAt (after_names (put name left self.old.files) self.old) self.old self.new) }
        ensures owed { OnErr result
            (Untouched self.old self.new ⊎ ((file name self.new).bytes ≢ Synced.Yes)) }
    {
        self.lock(rt)?;
        self.change_names();
        self.files.get_mut(name).create(rt)
    }

    /// Moves a file to another name, in the place of what that had. On an `Err` this has happened
    /// or not.
    pub(crate) fn rename(
        &mut self,
        rt: &impl Files<File = File>,
        from: FileName,
        to: FileName,
    ) -> io::Result<()>
        ensures ok { OnOk result (self.new ≡ after_names (moved from to self.old.files) self.old) }
        ensures err { OnErr result
            (FailsAt (after_names
            (maybe_moved from to self.old.files) self.old) self.old self.new) }
    {
        self.lock(rt)?;
        self.change_names();
        self.files.rename(rt, from, to)
    }

    /// Makes the names safe from a crash, with no system call where they are known to be. Where a
    /// file is a symbolic link this takes memory, for the path of what it names, and fails where
    /// there is none.
    pub(crate) fn sync_names(&mut self, rt: &impl Files<File = File>) -> io::Result<()>
        ensures ok { OnOk result (self.new ≡ with_names Synced.Yes self.old) }
        ensures err { OnErr result
            (FailsAt (with_names self.new.names self.old) self.old self.new) }
        ensures failed { self.old.names ≡ Synced.Failed
            → IsErr result × (self.new.names ≡ Synced.Failed) }
        ensures nothing_owed { self.old.names ≡ Synced.Yes → IsOk result
            ⊎ Untouched self.old self.new }
        ensures owed { OnErr result (Untouched self.old self.new ⊎ (self.new.names ≢ Synced.Yes)) }
    {
        self.lock(rt)?;
        match self.names {
            Synced::Yes => Ok(()),
            Synced::No => self.sync_owed_names(rt),
            Synced::Failed => Err(io::Error::from(ErrorKind::Other)),
        }
    }

    // Locks the folder, unless this was done. Fails where another holds it.
    fn lock(&mut self, rt: &impl Files<File = File>) -> io::Result<()>
        ensures ok { OnOk result (self.new ≡ locked self.old) }
        ensures err { OnErr result (Untouched self.old self.new) }
    {
        if self.lock.is_none() {
            let folder = self.open(rt)?;
            folder.try_lock()?;
            self.lock = Some(folder);
        }
        Ok(())
    }

    // Notes that a name is to be changed.
    fn change_names(&mut self)
        ensures owed { self.new ≡ record self.old { names = after_change self.old.names } }
    {
        self.names = self.names.after_change();
    }

    // Opens the folder for reading. Fails where something else than a folder stands there.
    fn open(&self, rt: &impl Files<File = File>) -> io::Result<File> {
        let folder = File::open(rt, &self.path)?;
        if folder.metadata()?.is_dir() {
            Ok(folder)
        } else {
            Err(io::Error::from(ErrorKind::NotADirectory))
        }
    }

    // Syncs the folder, and that of each file which a symbolic link in it names.
    fn sync_owed_names(&mut self, rt: &impl Files<File = File>) -> io::Result<()>
        requires unfailed { self.old.names ≢ Synced.Failed }
        ensures ok { OnOk result (self.new ≡ record self.old { names = Synced.Yes }) }
        ensures err { OnErr result
            ((self.new ≡ self.old) ⊎ (self.new ≡ record self.old { names = Synced.Failed })) }
    {
        self.sync_home(rt, FileName::Log)?;
        self.sync_home(rt, FileName::LogTemp)?;
        self.sync_home(rt, FileName::Dump)?;
        self.sync_home(rt, FileName::DumpTemp)?;
        let folder = self.open(rt)?;
        self.sync_folder(&folder)?;
        self.note_names_synced();
        Ok(())
    }

    // Notes that the names are on the disk, which no failed sync has left open.
    fn note_names_synced(&mut self)
        requires unfailed { self.old.names ≢ Synced.Failed }
        ensures synced { self.new ≡ record self.old { names = Synced.Yes } }
    {
        self.names = Synced::Yes;
    }

    // Where a file is a symbolic link, syncs the folder of what it names.
    fn sync_home(&mut self, rt: &impl Files<File = File>, name: FileName) -> io::Result<()>
        ensures ok { OnOk result (self.new ≡ self.old) }
        ensures err { OnErr result
            ((self.new ≡ self.old) ⊎ (self.new ≡ record self.old { names = Synced.Failed })) }
    {
        match open_home(rt, self.alloc, self.files.get(name).path())? {
            Some(home) => self.sync_folder(&home),
            None => Ok(()),
        }
    }

    // Asks the system to sync. A failure is never forgotten.
    fn sync_folder(&mut self, folder: &File) -> io::Result<()>
        ensures ok { OnOk result (self.new ≡ self.old) }
        ensures err { OnErr result (self.new ≡ record self.old { names = Synced.Failed }) }
    {
        let done = folder.sync_all();
        if done.is_err() {
            self.names = Synced::Failed;
        }
        done
    }
}
