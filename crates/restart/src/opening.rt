//! Opens the log of a directory.

ghost use Rattle.std.specs.Prelude.{◌≡◌, true, Err, IfOk, IfErr};
ghost use Rattle.core_types.specs.Causes.{HasCauseFor};
ghost use Rattle.core_types.specs.Keys.{no_keys};
ghost use Rattle.core_types.specs.declared.stop.Stop.TheVariants as stop;
ghost use Rattle.disk_model.specs.Told.{files_told, disk_told};
ghost use Rattle.disk_model.specs.Runs.{LeavesOnly, SameDisk};
ghost use Rattle.restart.specs.Restart.{RestartsAsLeft};
ghost use Rattle.restart.specs.Calls.{AsksToOpen, LookAsks};
ghost use Rattle.restart.specs.OpenLog.{Finds, HasOpened, IsUnopened, OpenStops, stop_of_read};
ghost use Rattle.restart.specs.declared.opening.OpenStop.TheVariants as stops;

use crate::finding::find;
use crate::keeping::make_safe;
use core_types::{NoMemory, Stop};
use disk_model::{Dir, DirFault, FileName, ReadAllStop};
use effect_log::{Reason, Replayer};
use std::alloc::Global;

/// A log that was opened.
#[derive(Clone, Copy, Debug, PartialEq, Eq)]
pub struct Opened {
    /// The number of bytes that the log had, 0 where there was none.
    pub length: u64,
    /// The number of its bytes without a torn unit: those that it has now.
    pub kept: u64,
    /// Whether the log was made of a dump. Dumps are not read yet, so it never was.
    pub imported: bool,
}

/// Why a log was not opened.
#[derive(Clone, Copy, Debug, PartialEq, Eq)]
pub enum OpenStop {
    /// The file is no log: the offset of its first fault, and the reason.
    LogRefused {
        /// The file that is refused.
        file: FileName,
        /// The offset of the byte that shows it.
        offset: u64,
        /// Why.
        reason: Reason,
    },
    /// There is no log, and a dump is there.
    NotBuilt,
    /// The directory failed, and counted it.
    Dir,
    /// Memory ran out, or a counter of the replayer stands at its end.
    Stopped(Stop),
}

impl From<NoMemory> for OpenStop {
    ghost from_gives = { λ _ end. end ≡ stops.Stopped stop.Memory };

    fn from(_: NoMemory) -> OpenStop {
        OpenStop::Stopped(Stop::Memory)
    }
}

impl From<DirFault> for OpenStop {
    ghost from_gives = { λ _ stop. stop ≡ stops.Dir };

    fn from(_: DirFault) -> OpenStop {
        OpenStop::Dir
    }
}

impl From<ReadAllStop> for OpenStop {
    ghost from_gives = { λ stop end. end ≡ stop_of_read stop };

    fn from(stop: ReadAllStop) -> OpenStop {
        match stop {
            ReadAllStop::Dir => OpenStop::Dir,
            ReadAllStop::Memory => OpenStop::Stopped(Stop::Memory),
        }
    }
}

/// Opens the log of a directory: reads it whole, replays its units into the replayer, makes what
/// was found safe from a crash, cuts off a torn unit at its end, and makes the names safe. Where
/// there is no log it begins one.
///
/// Whenever a crash comes, what it leaves restarts to the keys that the directory stood for at the
/// entry, or as what a crash at the entry might have left. A log that is refused leaves the
/// directory as it was. After an `Err` the replayer holds what the first effects made, and is to be
/// given up.
pub fn open_log<D: Dir, R: Replayer>(
    alloc: Global,
    dir: &mut D,
    replayer: &mut R,
) -> Result<Opened, OpenStop>
    requires none { R.keys replayer.old ≡ no_keys }
    ensures opened { IfOk result (λ opened.
        HasOpened R.meaning (D.told dir.old) (D.told dir.new) (R.keys replayer.new) opened) }
    ensures stop { IfErr result (λ stop.
        OpenStops R.meaning stop (D.told dir.old) (D.told dir.new)) }
    ensures crash { LeavesOnly (D.told dir.old) (D.told dir.new)
        (RestartsAsLeft R.meaning (disk_told (D.told dir.old))) }
    ensures calls { IfOk result (λ opened.
        AsksToOpen opened.kept (D.told dir.old) (D.told dir.new)) }
    ensures spent { result ≡ Err (stops.Stopped stop.NumbersSpent)
        → R.is_spent replayer.new ≡ true }
    ensures cause { HasCauseFor stops.Dir (D.told dir.old).faults (D.told dir.new).faults result }
{
    let found = find(alloc, dir, replayer)?;
    make_safe(dir, &found)?;
    Ok(found.opened())
}

/// Answers what `open_log` would, and changes nothing of the directory: how long its log is, how
/// much of it is whole units, and into the replayer the keys; or why it is not opened.
pub fn look<D: Dir, R: Replayer>(
    alloc: Global,
    dir: &mut D,
    replayer: &mut R,
) -> Result<Opened, OpenStop>
    requires none { R.keys replayer.old ≡ no_keys }
    ensures found { IfOk result (λ opened.
        Finds R.meaning (files_told (D.told dir.old)) (R.keys replayer.new) opened) }
    ensures stop { IfErr result (λ stop. IsUnopened R.meaning stop (files_told (D.told dir.old))) }
    ensures same { SameDisk (D.told dir.old) (D.told dir.new) }
    ensures calls { LookAsks result (D.told dir.old) (D.told dir.new) }
    ensures spent { result ≡ Err (stops.Stopped stop.NumbersSpent)
        → R.is_spent replayer.new ≡ true }
    ensures cause { HasCauseFor stops.Dir (D.told dir.old).faults (D.told dir.new).faults result }
{
    let found = find(alloc, dir, replayer)?;
    Ok(found.opened())
}
