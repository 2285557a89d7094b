//! One file of the folder: its handle, and whether its bytes are on the disk.

ghost use Rattle.std.specs.Prelude.{◌≡◌, ◌↔◌, ◌⊎◌, true, Ok, Some, None, is_some, IsOk, IsErr, IfOk, IfErr, OnOk, OnErr};
ghost use Rattle.std.specs.Path.{path_buf_bytes};
ghost use Rattle.std.specs.IoError.{error_kind};
ghost use Rattle.disk_model.specs.inner.Synced.{after_change};
ghost use Rattle.disk_model.specs.inner.RealFolder.{unopened, closed, changed, synced};

use super::synced::Synced;
use sequences::Blob;
use std::alloc::Global;
use std::fs::{File, OpenOptions};
use std::io::{self, ErrorKind, Read, Write};
use std::marker::Model;
use std::path::PathBuf;
use std::rt::Files;

/// A file by its path, which is open from its first change or sync on.
#[derive(Drop)]
pub(crate) struct RealFile {
    path: PathBuf,
    handle: Option<File>,
    bytes: Synced,
}

impl Model for RealFile {
    ghost use Rattle.std.specs.Prelude.{is_some};
    ghost use Rattle.std.specs.Path.{path_buf_bytes};
    ghost use Rattle.disk_model.specs.inner.RealFolder.{RealFile};

    ghost Value = { RealFile };

    ghost view = { λ f. record {
      path = path_buf_bytes f.path;
      is_open = is_some f.handle;
      bytes =
          f.bytes;
    } };
}

impl RealFile {
    /// The file at this path. An earlier run may have left its bytes unsynced.
    pub(crate) fn new(path: PathBuf) -> RealFile
        ensures unopened { result ≡ unopened (path_buf_bytes path) }
    {
        RealFile {
            path,
            handle: None,
            bytes: Synced::No,
        }
    }

    /// The path.
    pub(crate) fn path(&self) -> &PathBuf
        ensures path { path_buf_bytes result.now ≡ self.now.path }
    {
        &self.path
    }

    /// Whether the bytes are on the disk.
    pub(crate) fn bytes(&self) -> Synced
        ensures bytes { result ≡ self.now.bytes }
    {
        self.bytes
    }

    /// All bytes, or `None` where the file is not there.
    pub(crate) fn read_all(
        &self,
        rt: &impl Files<File = File>,
        alloc: Global,
    ) -> io::Result<Option<Blob>> {
        let Some(mut file) = found(File::open(rt, &self.path))? else {
            return Ok(None);
        };
        let mut bytes = Vec::new(alloc);
        file.read_to_end(&mut bytes)?;
        Ok(Some(Blob::from_vec(bytes)))
    }

    /// Makes the file new and empty, and syncs that: it may have been there, and no sync of the
    /// folder speaks of its bytes. Nothing is left of it then that a failed sync may have lost. The
    /// handle that makes it is closed: it would go on writing at its own place where the file is
    /// cut.
    pub(crate) fn create(&mut self, rt: &impl Files<File = File>) -> io::Result<()>
        ensures ok { OnOk result (self.new ≡ closed Synced.Yes self.old) }
        ensures err { OnErr result ((self.new ≡ closed (after_change self.old.bytes) self.old)
            ⊎ (self.new ≡ closed Synced.Failed self.old)) }
    {
        self.close(self.bytes.after_change());
        let made = File::create(rt, &self.path)?;
        let done = made.sync_all();
        self.bytes = Synced::after_sync(&done);
        done
    }

    /// Adds all of the bytes at the end. On an `Err` a front of them may stand there.
    pub(crate) fn append(&mut self, rt: &impl Files<File = File>, bytes: &[u8]) -> io::Result<()>
        ensures unsynced { self.new ≡ changed self.new.is_open self.old }
        ensures open { OnOk result (self.new.is_open ≡ true) }
    {
        self.bytes = self.bytes.after_change();
        let mut file = self.take_handle(rt)?;
        let done = file.write_all(bytes);
        self.handle = Some(file);
        done
    }

    /// Keeps this many of the first bytes. On an `Err` this has happened or not.
    pub(crate) fn cut(&mut self, rt: &impl Files<File = File>, length: u64) -> io::Result<()>
        ensures unsynced { self.new ≡ changed self.new.is_open self.old }
        ensures open { OnOk result (self.new.is_open ≡ true) }
    {
        self.bytes = self.bytes.after_change();
        let file = self.take_handle(rt)?;
        let done = file.set_len(length);
        self.handle = Some(file);
        done
    }

    /// Makes the bytes safe from a crash, with no system call where they are known to be. An `Err`
    /// that leaves what is known as it was comes from opening the file.
    pub(crate) fn sync(&mut self, rt: &impl Files<File = File>) -> io::Result<()>
        ensures ok { OnOk result (self.new ≡ synced self.new.is_open Synced.Yes self.old) }
        ensures nothing_owed { self.old.bytes ≡ Synced.Yes → IsOk result }
        ensures failed { self.old.bytes ≡ Synced.Failed → IsErr result }
        ensures err { OnErr result ((self.new ≡ synced self.new.is_open self.old.bytes self.old)
            ⊎ (self.new ≡ synced true Synced.Failed self.old)) }
    {
        match self.bytes {
            Synced::Yes => Ok(()),
            Synced::No => {
                let file = self.take_handle(rt)?;
                self.sync_data(file)
            }
            Synced::Failed => Err(io::Error::from(ErrorKind::Other)),
        }
    }

    /// Closes the file, of whose bytes this is known from now on.
    pub(crate) fn close(&mut self, bytes: Synced)
        ensures closed { self.new ≡ closed bytes self.old }
    {
        self.handle = None;
        self.bytes = bytes;
    }

    // Asks the system to sync, and keeps the handle. A failure is never forgotten.
    fn sync_data(&mut self, file: File) -> io::Result<()>
        ensures ok { OnOk result (self.new ≡ synced true Synced.Yes self.old) }
        ensures err { OnErr result (self.new ≡ synced true Synced.Failed self.old) }
    {
        let done = file.sync_data();
        self.bytes = Synced::after_sync(&done);
        self.handle = Some(file);
        done
    }

    // The handle, which is to be put back.
    fn take_handle(&mut self, rt: &impl Files<File = File>) -> io::Result<File>
        ensures taken { self.new ≡ closed self.old.bytes self.old }
    {
        match self.handle.take() {
            Some(file) => Ok(file),
            None => OpenOptions::new().append(true).open(rt, &self.path),
        }
    }
}

// Tells a file that is not there from one that can't be opened.
fn found(opened: io::Result<File>) -> io::Result<Option<File>>
    ensures found { IfOk opened (λ file. result ≡ Ok (Some file)) }
    ensures missing { IfErr opened (λ error. IsOk result ↔ error_kind error ≡ ErrorKind.NotFound) }
    ensures none { OnErr opened (OnOk result (result ≡ Ok None)) }
{
    match opened {
        Ok(file) => Ok(Some(file)),
        Err(error) if error.kind() == ErrorKind::NotFound => Ok(None),
        Err(error) => Err(error),
    }
}
