//! Replays the units of a log.

ghost use Rattle.std.specs.Prelude.{◌≡◌, ◌≤◌, true, Ok, Err, IfOk, IfErr, OnOk, length};
ghost use Rattle.core_types.specs.Keys.{no_keys};
ghost use Rattle.core_types.specs.declared.stop.Stop.TheVariants as stop;
ghost use Rattle.effect_log.specs.Replay.{Holds, replayed};
ghost use Rattle.restart.specs.declared.opening.OpenStop.TheVariants as stops;
ghost use Rattle.restart.specs.inner.Replaying.{BytesStop, UnitStop, AreReplayable, stopped_by};

use crate::opening::OpenStop;
use core_types::Effects;
use disk_model::FileName;
use effect_log::{LogReader, NextUnit, ReplayStop, Replayer};
use std::alloc::Global;

/// Replays the units of a log of these bytes, and says how many of the bytes they take. Behind them
/// there is nothing or a torn unit.
pub(crate) fn replay_log<R: Replayer>(
    alloc: Global,
    bytes: &[u8],
    replayer: &mut R,
) -> Result<u64, OpenStop>
    requires none { R.keys replayer.old ≡ no_keys }
    ensures holds { IfOk result (λ kept. Holds R.meaning bytes.now (R.keys replayer.new) kept) }
    ensures within { IfOk result (λ kept. kept ≤ length bytes.now) }
    ensures stop { IfErr result (λ stop. BytesStop R.meaning stop bytes.now) }
    ensures spent { result ≡ Err (stops.Stopped stop.NumbersSpent)
        → R.is_spent replayer.new ≡ true }
{
    let mut reader = LogReader::new(alloc, bytes, 0);
    loop {
        match reader.next()? {
            NextUnit::Unit(effects) => replay_unit(alloc, &reader, &effects, replayer)?,
            NextUnit::End => return Ok(bytes.len() as u64),
            NextUnit::Tail(kept) => return Ok(kept),
            NextUnit::Bad(offset, reason) => {
                return Err(OpenStop::LogRefused {
                    file: FileName::Log,
                    offset,
                    reason,
                });
            }
        }
    }
}

// Replays the effects of the unit that the reader took last.
fn replay_unit<R: Replayer>(
    alloc: Global,
    reader: &LogReader,
    effects: &Effects,
    replayer: &mut R,
) -> Result<(), OpenStop>
    requires each { AreReplayable effects.now }
    requires starts { length reader.now.starts ≡ length effects.now }
    ensures ok { OnOk result
        (replayed R.meaning (R.keys replayer.old) effects.now ≡ Ok (R.keys replayer.new)) }
    ensures stop { IfErr result (λ stop.
        UnitStop R.meaning stop (R.keys replayer.old) effects.now reader.now.starts) }
    ensures spent { result ≡ Err (stops.Stopped stop.NumbersSpent)
        → R.is_spent replayer.new ≡ true }
{
    for (n, effect) in effects.as_slice().iter().enumerate() {
        if let Err(stop) = replayer.replay(alloc, effect) {
            return Err(stopped(stop, reader.effect_at(n as u64)));
        }
    }
    Ok(())
}

// The stop that an effect at this offset leads to, where it was not replayed.
fn stopped(stop: ReplayStop, offset: u64) -> OpenStop
    ensures { result ≡ stopped_by stop offset }
{
    match stop {
        ReplayStop::Refused(_, reason) => OpenStop::LogRefused {
            file: FileName::Log,
            offset,
            reason,
        },
        ReplayStop::Stopped(stop) => OpenStop::Stopped(stop),
    }
}
