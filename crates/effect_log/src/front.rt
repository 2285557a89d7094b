//! The unit at the front of bytes.

ghost use Rattle.std.specs.Prelude.{◌≡◌, ◌<◌, ◌+◌, ◌^◌, [], ◌∷◌, ◌++◌, length, IfOk, OnOk};
ghost use Rattle.effect_log.specs.Unit.{multi};
ghost use Rattle.effect_log.specs.Entry.{IsNamedFront};
ghost use Rattle.effect_log.specs.Front.{IsFront};

use crate::entry::{Entry, read_entry};
use crate::reason::Reason;
use core_types::{Effect, Effects, NoMemory, Sequence};
use std::alloc::Global;

/// What stands at the front of bytes, where a unit is due.
#[derive(Drop)]
pub(crate) enum Front {
    /// A whole unit: its effects, where each of them begins in the log, and how many bytes it
    /// takes.
    Unit(Effects, Vec<u64>, usize),
    /// A whole unit of one effect, and how many bytes it takes.
    Lone(Effect, usize),
    /// A unit that was not written to its end.
    Torn,
    /// A fault of form: its place, and why.
    Bad(usize, Reason),
}

/// Reads the unit at the front of the bytes, which begin at an offset of the log.
pub(crate) fn read_unit(alloc: Global, bytes: &[u8], offset: u64) -> Result<Front, NoMemory>
    requires some { 0 < length bytes.now }
    requires fits { offset + length bytes.now < 2 ^ 64 }
    ensures { IfOk result (IsFront bytes.now offset) }
{
    match read_entry(alloc, bytes)? {
        Entry::Multi(size) => read_enclosed(alloc, bytes, offset, size),
        Entry::Exec(_) => Ok(Front::Bad(0, Reason::LoneExec)),
        Entry::Effect(effect, size) => Ok(Front::Lone(effect, size)),
        Entry::Unfinished => Ok(Front::Torn),
        Entry::Bad(place, why) => Ok(Front::Bad(place, why)),
    }
}

// Reads the unit that a MULTI of this size opens, up to its EXEC.
fn read_enclosed(
    alloc: Global,
    bytes: &[u8],
    offset: u64,
    opening: usize,
) -> Result<Front, NoMemory>
    requires opened { IsNamedFront multi bytes.now opening }
    requires fits { offset + length bytes.now < 2 ^ 64 }
    ensures { IfOk result (IsFront bytes.now offset) }
{
    let mut effects = Sequence::new(alloc);
    let mut starts = Vec::new(alloc);
    let mut place = opening;
    loop {
        match read_entry(alloc, &bytes[place..])? {
            Entry::Effect(effect, size) => {
                add_effect(&mut effects, &mut starts, effect, offset + place as u64)?;
                place += size;
            }
            Entry::Exec(size) => return Ok(Front::Unit(effects, starts, place + size)),
            Entry::Multi(_) => return Ok(Front::Bad(place, Reason::NestedMulti)),
            Entry::Unfinished => return Ok(Front::Torn),
            Entry::Bad(at, why) => return Ok(Front::Bad(place + at, why)),
        }
    }
}

// Adds an effect, and where it begins in the log.
fn add_effect(
    effects: &mut Effects,
    starts: &mut Vec<u64>,
    effect: Effect,
    start: u64,
) -> Result<(), NoMemory>
    ensures effects { OnOk result (effects.new ≡ effects.old ++ effect ∷ []) }
    ensures starts { OnOk result (starts.new.items ≡ starts.old.items ++ start ∷ []) }
{
    effects.push(effect)?;
    starts.push(start)?;
    Ok(())
}
