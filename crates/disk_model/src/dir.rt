//! A directory as the layers above see it.

ghost use Rattle.std.specs.Prelude.{◌≡◌, [], IfOk, OnOk, OnErr, IfSome};
ghost use Rattle.sequences.specs.Causes.{HasCause, HasCauseFor};
ghost use Rattle.disk_model.specs.declared.dir.ReadAllStop.TheVariants as stops;
ghost use Rattle.disk_model.specs.Files.{Files, file, with_file, with_appended, with_cut, with_moved, Become, Stay, IsThere, IsAtLeast, IsSmall};
ghost use Rattle.disk_model.specs.Past.{Call, Outcome};
ghost use Rattle.disk_model.specs.Told.{Told, files_told, Goes, Fails, Was};

use crate::FileName;
use sequences::{Blob, NoMemory};
use std::alloc::Global;

/// The directory failed, and counted it.
#[derive(Clone, Copy, Debug, PartialEq, Eq)]
pub struct DirFault;

/// Why a file was not read.
#[derive(Clone, Copy, Debug, PartialEq, Eq)]
pub enum ReadAllStop {
    /// The directory failed, and counted it.
    Dir,
    /// Memory ran out.
    Memory,
}

impl From<DirFault> for ReadAllStop {
    ghost from_gives = { λ _ stop. stop ≡ stops.Dir };

    fn from(_: DirFault) -> ReadAllStop {
        ReadAllStop::Dir
    }
}

impl From<NoMemory> for ReadAllStop {
    ghost from_gives = { λ _ stop. stop ≡ stops.Memory };

    fn from(_: NoMemory) -> ReadAllStop {
        ReadAllStop::Memory
    }
}

/// A directory of the four files of `FileName`. What its files read as, and what a crash may leave
/// of them at each moment, follow from the calls made on it and how they came out (`Goes`,
/// `Fails`).
pub trait Dir {
    /// What was done on it, where it tells that, and how often it has failed. The count never
    /// falls, and stands still at the end of 64 bits.
    ghost told: { Self → Told };

    /// All bytes of a file, or `None` where it is not there.
    fn read_all(&mut self, alloc: Global, name: FileName) -> Result<Option<Blob>, ReadAllStop>
        ensures content { IfOk result (λ found.
            IfSome (files_told (told self.old)) (λ files. found ≡ file name files)) }
        ensures same { Stay (files_told (told self.old)) (files_told (told self.new)) }
        ensures done { OnOk result
            (Goes (Call.ReadAll name) Outcome.Done (told self.old) (told self.new)) }
        ensures failed { OnErr result (Was (Call.ReadAll name) (told self.old) (told self.new)) }
        ensures cause { HasCauseFor ReadAllStop.Dir (told self.old).faults
            (told self.new).faults result };

    /// Adds bytes at the end of a file. On a fault a front of them may stand there. A file has at
    /// most 2^64 - 1 bytes: an append that would pass that fails.
    fn append(&mut self, name: FileName, bytes: &[u8]) -> Result<(), DirFault>
        requires { IsThere name (files_told (told self.old)) }
        ensures ok { OnOk result (Become (with_appended name bytes.now)
            (files_told (told self.old)) (files_told (told self.new))) }
        ensures small { OnOk result (IsSmall name (files_told (told self.new))) }
        ensures small_err { OnErr result
            (IsSmall name (files_told (told self.old))
            → IsSmall name (files_told (told self.new))) }
        ensures done { OnOk result
            (Goes (Call.Append name bytes.now) Outcome.Done (told self.old) (told self.new)) }
        ensures failed { OnErr result
            (Fails (Call.Append name bytes.now) (told self.old) (told self.new)) }
        ensures cause { HasCause (told self.old).faults (told self.new).faults result };

    /// Keeps this many of a file's first bytes and drops the rest. On a fault this has happened
    /// or not.
    fn cut(&mut self, name: FileName, length: u64) -> Result<(), DirFault>
        requires { IsAtLeast length name (files_told (told self.old)) }
        ensures ok { OnOk result (Become (with_cut name length)
            (files_told (told self.old)) (files_told (told self.new))) }
        ensures done { OnOk result
            (Goes (Call.Cut name length) Outcome.Done (told self.old) (told self.new)) }
        ensures failed { OnErr result
            (Fails (Call.Cut name length) (told self.old) (told self.new)) }
        ensures cause { HasCause (told self.old).faults (told self.new).faults result };

    /// Makes the bytes of a file safe from a crash. On a fault nothing is made safe.
    fn sync(&mut self, name: FileName) -> Result<(), DirFault>
        requires { IsThere name (files_told (told self.old)) }
        ensures same { Stay (files_told (told self.old)) (files_told (told self.new)) }
        ensures done { OnOk result
            (Goes (Call.Sync name) Outcome.Done (told self.old) (told self.new)) }
        ensures failed { OnErr result (Fails (Call.Sync name) (told self.old) (told self.new)) }
        ensures cause { HasCause (told self.old).faults (told self.new).faults result };

    /// Gives the name a new and empty file. On a fault this has happened or not.
    fn create(&mut self, name: FileName) -> Result<(), DirFault>
        ensures ok { OnOk result (Become (with_file name [])
            (files_told (told self.old)) (files_told (told self.new))) }
        ensures done { OnOk result
            (Goes (Call.Create name) Outcome.Done (told self.old) (told self.new)) }
        ensures failed { OnErr result (Fails (Call.Create name) (told self.old) (told self.new)) }
        ensures cause { HasCause (told self.old).faults (told self.new).faults result };

    /// Moves a file to another name, and takes away what that had. On a fault this has happened or
    /// not.
    fn rename(&mut self, from: FileName, to: FileName) -> Result<(), DirFault>
        requires { IsThere from (files_told (told self.old)) }
        ensures ok { OnOk result (Become (with_moved from to)
            (files_told (told self.old)) (files_told (told self.new))) }
        ensures done { OnOk result
            (Goes (Call.Rename from to) Outcome.Done (told self.old) (told self.new)) }
        ensures failed { OnErr result
            (Fails (Call.Rename from to) (told self.old) (told self.new)) }
        ensures cause { HasCause (told self.old).faults (told self.new).faults result };

    /// Makes the names safe from a crash. On a fault nothing is made safe.
    fn sync_names(&mut self) -> Result<(), DirFault>
        ensures same { Stay (files_told (told self.old)) (files_told (told self.new)) }
        ensures done { OnOk result
            (Goes Call.SyncNames Outcome.Done (told self.old) (told self.new)) }
        ensures failed { OnErr result (Fails Call.SyncNames (told self.old) (told self.new)) }
        ensures cause { HasCause (told self.old).faults (told self.new).faults result };
}
