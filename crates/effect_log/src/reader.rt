//! The units of a log, one after the other.

ghost use Rattle.std.specs.Prelude.{◌≡◌, ◌<◌, ◌≤◌, ◌++◌, ◌≢◌, ◌⊎◌, ◌+◌, List, ℕ, length, take, slice_get, [], ◌∷◌, Ok, Some, IfOk, OnOk, OnErr};
ghost use Rattle.std.specs.List.{AllByRecursion};
ghost use Rattle.core_types.specs.declared.effect.Effect.{Effect};
ghost use Rattle.effect_log.specs.declared.reason.Reason.{Reason};
ghost use Rattle.effect_log.specs.Unit.{unit, IsLoggable};
ghost use Rattle.effect_log.specs.Log.{Unit, HoldsUnits, BreaksAt};
ghost use Rattle.effect_log.specs.Reading.{TakesUnit, IsTail, IsFaulty};
ghost use Rattle.effect_log.specs.Written.{AreLoggable, log_text, units_written};

use crate::front::{Front, read_unit};
use crate::reason::Reason;
use core_types::{Effect, Effects, NoMemory, Sequence};
use std::alloc::Global;
use std::marker::Model;

/// What a log holds next.
#[derive(Debug, Drop)]
pub enum NextUnit {
    /// A whole unit: its effects, in order.
    Unit(Effects),
    /// Nothing more.
    End,
    /// A unit that was not written to its end, and the offset of its first byte.
    Tail(u64),
    /// The first fault of form: its offset, and why.
    Bad(u64, Reason),
}

/// A reader of the units of a log, from a place on. It holds no copy of the log, and takes memory
/// for one unit at a time.
#[derive(Debug, Drop)]
pub struct LogReader<'a> {
    alloc: Global,
    bytes: &'a [u8],
    // Where the next unit begins.
    place: usize,
    // Where each effect of the last unit begins.
    starts: Vec<u64>,
}

impl<'a> Model for LogReader<'a> {
    ghost use Rattle.effect_log.specs.Reading.{Log};
    ghost use Rattle.std.specs.Prelude.{◌≤◌, length};

    ghost Value = { Log };

    ghost view = { λ r. record { bytes = r.bytes.now; place = r.place; starts = r.starts.items } };

    ghost invariant = { λ r. r.place ≤ length r.bytes.now };
}

impl<'a> LogReader<'a> {
    /// A reader of these bytes from `start` on, where a front ends. Takes no memory.
    pub fn new(alloc: Global, bytes: &'a [u8], start: u64) -> LogReader<'a>
        requires { start ≤ length bytes.now }
        ensures bytes { result.bytes ≡ bytes.now }
        ensures place { result.place ≡ start }
    {
        LogReader {
            alloc,
            bytes,
            place: start as usize,
            starts: Vec::new(alloc),
        }
    }

    /// Takes the next unit. What is no unit is told again and again, with its offset in all the
    /// bytes, and an `Err` changes nothing.
    pub fn next(&mut self) -> Result<NextUnit, NoMemory>
        ensures unit { (effects : List Effect) → result ≡ Ok (NextUnit.Unit effects)
            → TakesUnit self.old self.new effects }
        ensures end { result ≡ Ok NextUnit.End → (self.old.place ≡ length self.old.bytes)
            × (self.new ≡ self.old) }
        ensures tail { (offset : ℕ) → result ≡ Ok (NextUnit.Tail offset) → IsTail self.old offset
            × (self.new ≡ self.old) }
        ensures bad { (offset : ℕ) (why : Reason) → result ≡ Ok (NextUnit.Bad offset why)
            → IsFaulty self.old offset why × (self.new ≡ self.old) }
        ensures err { OnErr result (self.new ≡ self.old) }
    {
        let rest = &self.bytes[self.place..];
        if rest.is_empty() {
            return Ok(NextUnit::End);
        }
        match read_unit(self.alloc, rest, self.place as u64)? {
            Front::Unit(effects, starts, size) => {
                self.pass(starts, size);
                Ok(NextUnit::Unit(effects))
            }
            Front::Lone(effect, size) => Ok(NextUnit::Unit(self.pass_lone(effect, size)?)),
            Front::Torn => Ok(NextUnit::Tail(self.place as u64)),
            Front::Bad(place, why) => Ok(NextUnit::Bad(self.place as u64 + place as u64, why)),
        }
    }

    // Passes a unit of this size, whose effects begin at these places.
    fn pass(&mut self, starts: Vec<u64>, size: usize)
        requires { self.old.place + size ≤ length self.old.bytes }
        ensures bytes { self.new.bytes ≡ self.old.bytes }
        ensures place { self.new.place ≡ self.old.place + size }
        ensures starts { self.new.starts ≡ starts.items }
    {
        self.place += size;
        self.starts = starts;
    }

    // Passes a unit of this effect alone, of this size, and gives its effects.
    fn pass_lone(&mut self, effect: Effect, size: usize) -> Result<Effects, NoMemory>
        requires { self.old.place + size ≤ length self.old.bytes }
        ensures effects { IfOk result (λ effects. effects ≡ effect ∷ []) }
        ensures ok { OnOk result (self.new ≡ record self.old
            { place = self.old.place + size; starts = self.old.place ∷ [] }) }
        ensures err { OnErr result (self.new ≡ self.old) }
    {
        let mut effects = Sequence::new(self.alloc);
        effects.push(effect)?;
        self.starts.reserve(1)?;
        self.starts.clear();
        self.starts.push_reserved(self.place as u64);
        self.place += size;
        Ok(effects)
    }

    /// The offset of an effect of the last unit that was taken, counted from 0. Takes no memory.
    pub fn effect_at(&self, n: u64) -> u64
        requires { n < length self.now.starts }
        ensures start { slice_get self.now.starts n ≡ Some result }
    {
        self.starts[n as usize]
    }
}

/// A log has one reading: its units, and where they end, or its first fault of form, and never
/// both. Each list of bytes has one of the two.
pub fn one_log()
    ensures either { (bytes : List ℕ)
        → ((units : List Unit) × (kept : ℕ) × HoldsUnits bytes units kept)
        ⊎ ((units : List Unit) × (why : Reason) × (at : ℕ) × BreaksAt bytes units why at) }
    ensures units { (bytes : List ℕ) (units others : List Unit) (kept other : ℕ)
        → HoldsUnits bytes units kept
        → HoldsUnits bytes others other → (units ≡ others) × (kept ≡ other) }
    ensures fault { (bytes : List ℕ) (units others : List Unit) (why other : Reason) (at place : ℕ)
        → BreaksAt bytes units why at → BreaksAt bytes others other place
        → (units ≡ others) × (why ≡ other) × (at ≡ place) }
    ensures apart { (bytes : List ℕ) (units others : List Unit) (kept at : ℕ) (why : Reason)
        → HoldsUnits bytes units kept → ¬ BreaksAt bytes others why at }
{}

/// What `unit_text` writes is read back: the units of any events are those units, and a last one of
/// which a part is missing is a torn one, which begins where it begins. Whatever follows whole
/// units, they stay units, and it is read as it is by itself.
pub fn units_read_back()
    ensures whole { (events : List (List Effect)) → AreLoggable events
        → HoldsUnits (log_text events) (units_written events) (length (log_text events)) }
    ensures torn { (events : List (List Effect)) (last : List Effect) (count : ℕ)
        → AreLoggable events
        → AllByRecursion IsLoggable last → 0 < count → count < length (unit last)
        → HoldsUnits (log_text events ++ take count (unit last)) (units_written events)
        (length (log_text events)) }
    ensures joined { (front more : List ℕ) (units others : List Unit) (kept : ℕ)
        → HoldsUnits front units (length front)
        → HoldsUnits more others kept
        → HoldsUnits (front ++ more) (units ++ others) (length front + kept) }
    ensures joined_fault { (front more : List ℕ) (units others : List Unit) (why : Reason) (at : ℕ)
        → HoldsUnits front units (length front) → BreaksAt more others why at
        → BreaksAt (front ++ more) (units ++ others) why (length front + at) }
{}
