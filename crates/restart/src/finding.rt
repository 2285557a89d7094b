//! Finds what a directory is opened from.

ghost use Rattle.std.specs.Prelude.{◌≡◌, true, Err, IfOk, IfErr};
ghost use Rattle.core_types.specs.Causes.{HasCauseFor};
ghost use Rattle.core_types.specs.Keys.{no_keys};
ghost use Rattle.core_types.specs.declared.stop.Stop.TheVariants as stop;
ghost use Rattle.disk_model.specs.Told.{files_told};
ghost use Rattle.restart.specs.OpenLog.{IsUnopened};
ghost use Rattle.restart.specs.inner.Finding.{IsThereAs, LooksOnly, StandsFor, opened_of};
ghost use Rattle.restart.specs.declared.opening.OpenStop.TheVariants as stops;

use crate::opening::{OpenStop, Opened};
use crate::replaying::replay_log;
use core_types::Blob;
use disk_model::{Dir, FileName};
use effect_log::Replayer;
use std::alloc::Global;

/// What a directory is opened from.
#[derive(Debug, Drop)]
pub(crate) enum Found {
    /// A log of these bytes, and how many of them are whole units.
    Log(Blob, u64),
    /// Neither a log nor a dump.
    Nothing,
}

impl Found {
    /// What is told of it.
    pub(crate) fn opened(&self) -> Opened
        ensures opened { result ≡ opened_of self.now }
    {
        match self {
            Found::Log(bytes, kept) => Opened {
                length: bytes.len() as u64,
                kept: *kept,
                imported: false,
            },
            Found::Nothing => Opened {
                length: 0,
                kept: 0,
                imported: false,
            },
        }
    }
}

/// Reads the log, and replays it. Where there is none, looks whether a dump is there. Changes
/// nothing.
pub(crate) fn find<D: Dir, R: Replayer>(
    alloc: Global,
    dir: &mut D,
    replayer: &mut R,
) -> Result<Found, OpenStop>
    requires none { R.keys replayer.old ≡ no_keys }
    ensures there { IfOk result (λ found. IsThereAs found (files_told (D.told dir.old))) }
    ensures keys { IfOk result (λ found. StandsFor R.meaning found (R.keys replayer.new)) }
    ensures stop { IfErr result (λ stop. IsUnopened R.meaning stop (files_told (D.told dir.old))) }
    ensures looks { LooksOnly result (D.told dir.old) (D.told dir.new) }
    ensures spent { result ≡ Err (stops.Stopped stop.NumbersSpent)
        → R.is_spent replayer.new ≡ true }
    ensures cause { HasCauseFor stops.Dir (D.told dir.old).faults (D.told dir.new).faults result }
{
    if let Some(bytes) = dir.read_all(alloc, FileName::Log)? {
        let kept = replay_log(alloc, bytes.as_slice(), replayer)?;
        return Ok(Found::Log(bytes, kept));
    }
    if dir.read_all(alloc, FileName::Dump)?.is_some() {
        return Err(OpenStop::NotBuilt);
    }
    Ok(Found::Nothing)
}
