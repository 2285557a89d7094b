//! The units that are kept, oldest first.

ghost use Rattle.std.specs.Prelude.{◌≡◌, ◌++◌, ℕ, [], ◌∷◌, nat_lt, length, take, drop, slice_get, OnOk, OnErr};
ghost use Rattle.std.specs.List.{find};
ghost use Rattle.std.specs.List.Sorted.{IsNonDecreasingBy};
ghost use Rattle.std.specs.Option.{option_copied};
ghost use Rattle.replica_feed.specs.Units.{last_to};

use core_types::{Effects, NoMemory};
use std::alloc::Global;
use std::collections::VecDeque;
use std::marker::Model;

/// The effects of one event, and the numbers from the event before it with effects to behind it.
#[derive(Debug, Drop)]
pub(crate) struct Kept {
    from: u64,
    to: u64,
    effects: Effects,
}

impl Model for Kept {
    ghost use Rattle.core_types.specs.Shown as shown;

    ghost Value = { shown.NumberedEffects };

    ghost view = { λ k. record { from = k.from; to = k.to; effects = k.effects } };
}

impl Kept {
    pub(crate) fn new(from: u64, to: u64, effects: Effects) -> Kept
        ensures { result ≡ record { from = from; to = to; effects = effects } }
    {
        Kept { from, to, effects }
    }

    pub(crate) fn to(&self) -> u64
        ensures { result ≡ self.now.to }
    {
        self.to
    }

    pub(crate) fn effects(&self) -> &Effects
        ensures { result.now ≡ self.now.effects }
    {
        &self.effects
    }
}

/// Units in the order of their events. Adding at the end is amortized O(1), finding one by a number
/// O(log n), and dropping the oldest O(1) beside what it has.
#[derive(Debug, Drop)]
pub(crate) struct Units {
    units: VecDeque<Kept>,
}

impl Model for Units {
    ghost use Rattle.std.specs.Prelude.{List};
    ghost use Rattle.core_types.specs.Shown as shown;

    ghost Value = { List shown.NumberedEffects };

    ghost view = { λ u. u.units.items };
}

impl Units {
    pub(crate) fn new(alloc: Global) -> Units
        ensures empty { result ≡ [] }
    {
        Units {
            units: VecDeque::new(alloc),
        }
    }

    pub(crate) fn len(&self) -> usize
        ensures length { result ≡ length self.now }
    {
        self.units.len()
    }

    pub(crate) fn push(&mut self, unit: Kept) -> Result<(), NoMemory>
        ensures ok { OnOk result (self.new ≡ self.old ++ unit ∷ []) }
        ensures err { OnErr result (self.new ≡ self.old) }
    {
        match self.units.push_back(unit) {
            Ok(()) => Ok(()),
            Err(_) => Err(NoMemory),
        }
    }

    // Drops the oldest, and gives the number after its event, or `first` where there is none.
    pub(crate) fn drop_oldest(&mut self, first: u64) -> u64
        ensures rest { self.new ≡ drop 1 self.old }
        ensures to { result ≡ last_to first (take 1 self.old) }
    {
        match self.units.pop_front() {
            Some(oldest) => oldest.to(),
            None => first,
        }
    }

    // The number after the last event, or `first` where there is none.
    pub(crate) fn last_to(&self, first: u64) -> u64
        ensures { result ≡ last_to first self.now }
    {
        match self.units.back() {
            Some(last) => last.to(),
            None => first,
        }
    }

    // The first that ends above a number, where they end later and later.
    pub(crate) fn first_above(&self, from: u64) -> Option<&Kept>
        requires rising { IsNonDecreasingBy (λ u. u.to) self.now }
        ensures { option_copied result ≡ find (λ u. nat_lt from u.to) self.now }
    {
        self.units.get(self.place_above(from))
    }

    // The place of that unit, or the number of units where there is none.
    fn place_above(&self, from: u64) -> usize
        requires rising { IsNonDecreasingBy (λ u. u.to) self.now }
        ensures { find (λ u. nat_lt from u.to) self.now ≡ slice_get self.now result }
    {
        self.units.partition_point(|unit| unit.to() <= from)
    }
}
