//! What a log is replayed into.

ghost use Rattle.std.specs.Prelude.{◌≡◌, ◌<◌, ◌≤◌, ◌++◌, ◌⊎◌, List, ℕ, Bool, true, length, take, Ok, Err, OnOk};
ghost use Rattle.std.specs.List.{AllByRecursion};
ghost use Rattle.core_types.specs.Keys.{Keys};
ghost use Rattle.core_types.specs.declared.effect.Effect.{Effect};
ghost use Rattle.core_types.specs.declared.stop.Stop.TheVariants as stop;
ghost use Rattle.effect_log.specs.Unit.{unit, IsLoggable, IsReplayable};
ghost use Rattle.effect_log.specs.Written.{AreLoggable, effects_in, log_text};
ghost use Rattle.effect_log.specs.Replay.{Meaning, Refuses, replayed, Holds, IsRefused};
ghost use Rattle.effect_log.specs.declared.reason.Reason.{Reason};
ghost use Rattle.effect_log.specs.declared.replayer.ReplayStop.TheVariants as stops;

use crate::reason::Reason;
use core_types::{Effect, NoMemory, Stop};
use std::alloc::Global;

/// Why something of a log was not replayed.
#[derive(Clone, Copy, Debug, PartialEq, Eq)]
pub enum ReplayStop {
    /// It makes nothing of the keys: the place in it that shows this, and why. The place of an
    /// effect is 0.
    Refused(u64, Reason),
    /// The replayer could not go on.
    Stopped(Stop),
}

impl From<NoMemory> for ReplayStop {
    ghost from_gives = { λ _ end. end ≡ stops.Stopped stop.Memory };

    fn from(_: NoMemory) -> ReplayStop {
        ReplayStop::Stopped(Stop::Memory)
    }
}

/// Keys that effects are replayed into, one after the other.
pub trait Replayer {
    /// The keys.
    ghost keys: { Self → Keys };

    /// What replaying an effect makes of some keys.
    ghost meaning: { Meaning };

    /// Whether one of its counters of 64 bits stands at its end.
    ghost is_spent: { Self → Bool };

    /// Replays one effect. A refusal leaves the keys as they were. A replayer that could not go on
    /// may have done a part of the effect, and is to be given up.
    fn replay(&mut self, alloc: Global, effect: &Effect) -> Result<(), ReplayStop>
        requires { IsReplayable effect.now }
        ensures ok { OnOk result (meaning (keys self.old) effect.now ≡ Ok (keys self.new)) }
        ensures refused { (place : ℕ) (why : Reason) → result ≡ Err (stops.Refused place why)
            → (place ≡ 0) × Refuses meaning (keys self.old) effect.now why }
        ensures spent { result ≡ Err (stops.Stopped stop.NumbersSpent) → is_spent self.new ≡ true }
        ensures err { (place : ℕ) (why : Reason) → result ≡ Err (stops.Refused place why)
            → keys self.new ≡ keys self.old };
}

/// Whatever replaying an effect means, a log stands for keys, up to one place, or it is refused,
/// for one reason and at one place, and never both. Each list of bytes has one of the two.
pub fn one_replay()
    ensures either { (replay : Meaning) (bytes : List ℕ)
        → ((keys : Keys) × (kept : ℕ) × Holds replay bytes keys kept)
        ⊎ ((why : Reason) × (at : ℕ) × IsRefused replay bytes why at) }
    ensures keys { (replay : Meaning) (bytes : List ℕ) (keys others : Keys) (kept other : ℕ)
        → Holds replay bytes keys kept
        → Holds replay bytes others other → (keys ≡ others) × (kept ≡ other) }
    ensures refused { (replay : Meaning) (bytes : List ℕ) (why other : Reason) (at place : ℕ)
        → IsRefused replay bytes why at
        → IsRefused replay bytes other place → (why ≡ other) × (at ≡ place) }
    ensures apart { (replay : Meaning) (bytes : List ℕ) (keys : Keys) (kept at : ℕ) (why : Reason)
        → Holds replay bytes keys kept → ¬ IsRefused replay bytes why at }
{}

/// A log that stands for keys goes on: cut behind its units it stands for the same keys, and with
/// the units of more events behind it for what their effects make of these. A last unit of which a
/// part is missing changes nothing.
pub fn log_goes_on()
    ensures kept { (replay : Meaning) (bytes : List ℕ) (keys : Keys) (kept : ℕ)
        → Holds replay bytes keys kept
        → Holds replay (take kept bytes) keys (length (take kept bytes)) }
    ensures cut { (replay : Meaning) (bytes : List ℕ) (keys : Keys) (kept count : ℕ)
        → Holds replay bytes keys kept
        → kept ≤ count → Holds replay (take count bytes) keys kept }
    ensures more { (replay : Meaning) (bytes : List ℕ) (keys then : Keys)
        (events : List (List Effect))
        → Holds replay bytes keys (length bytes) → AreLoggable events
        → replayed replay keys (effects_in events) ≡ Ok then
        → Holds replay (bytes ++ log_text events) then (length (bytes ++ log_text events)) }
    ensures torn { (replay : Meaning) (bytes : List ℕ) (keys : Keys) (last : List Effect)
        (count : ℕ)
        → Holds replay bytes keys (length bytes) → AllByRecursion IsLoggable last → 0 < count
        → count < length (unit last)
        → Holds replay (bytes ++ take count (unit last)) keys (length bytes) }
{}
