//! The units of a run that are kept for replicas.

ghost use Rattle.std.specs.Prelude.{◌≡◌, ◌<◌, ◌-◌, ◌^◌, nat_lt, IfOk, OnOk, OnErr};
ghost use Rattle.std.specs.List.{AllByRecursion, find};
ghost use Rattle.effect_log.specs.Unit.{IsLoggable};
ghost use Rattle.replica_feed.specs.Units.{kept_from, pushed, since_in, frame_from, IsWritable};

use crate::frame::Frame;
use crate::units::{Kept, Units};
use core_types::{Effects, NoMemory, Sequence};
use std::alloc::Global;
use std::marker::Model;

// The most units that are kept.
const MOST: usize = 1_048_576;

/// What comes since a number.
#[derive(Debug, Drop)]
pub enum Since {
    /// This frame, from the number on.
    Frame(Frame),
    /// Nothing yet.
    Caught,
    /// More than is kept, which begins at this number.
    Behind(u64),
}

/// What a run did since some number, for replicas that follow it: the last 1,048,576 units that are
/// not empty.
#[derive(Debug, Drop)]
pub struct Backlog {
    run: u64,
    first: u64,
    end: u64,
    units: Units,
    alloc: Global,
}

impl Model for Backlog {
    ghost use Rattle.core_types.specs.Shown as shown;
    ghost use Rattle.std.specs.Prelude.{◌≤◌, length};
    ghost use Rattle.replica_feed.specs.Units.{AreKept, most_units};

    ghost Value = { shown.Backlog };

    ghost view = { λ b. record { run = b.run; first = b.first; end = b.end; units = b.units } };

    ghost invariant = { λ b. AreKept b.first b.units b.end × (length b.units ≤ most_units) };
}

impl Backlog {
    /// A backlog of a run of which `first` events have passed. Nothing is kept yet, and what comes
    /// will be kept from that number on. Takes no memory.
    pub fn new(alloc: Global, run: u64, first: u64) -> Backlog
        ensures empty { result ≡ kept_from run first }
    {
        Backlog {
            run,
            first,
            end: first,
            units: Units::new(alloc),
            alloc,
        }
    }

    /// Adds the next event, with its effects, which a log can hold. Where that makes more units
    /// than are kept, the oldest goes, and what is kept begins after its event. An `Err` changes
    /// nothing.
    pub fn push(&mut self, effects: &Effects) -> Result<(), NoMemory>
        requires room { self.old.end < 2 ^ 64 - 1 }
        requires loggable { AllByRecursion IsLoggable effects.now }
        ensures ok { OnOk result (self.new ≡ pushed self.old effects.now) }
        ensures err { OnErr result (self.new ≡ self.old) }
    {
        let end = self.end + 1;
        if effects.is_empty() {
            self.end = end;
            return Ok(());
        }
        let from = self.units.last_to(self.first);
        let unit = Kept::new(from, end, effects.copy(self.alloc)?);
        self.units.push(unit)?;
        self.end = end;
        if self.units.len() > MOST {
            self.first = self.units.drop_oldest(self.first);
        }
        Ok(())
    }

    /// The number from which all is kept.
    pub fn first(&self) -> u64
        ensures first { result ≡ self.now.first }
    {
        self.first
    }

    /// The number of the next event.
    pub fn end(&self) -> u64
        ensures end { result ≡ self.now.end }
    {
        self.end
    }

    /// The run.
    pub fn run(&self) -> u64
        ensures run { result ≡ self.now.run }
    {
        self.run
    }

    /// What comes since a number: `Behind` exactly where it is below `first`, else `Caught` exactly
    /// where it is at least `end`, else the frame from it to the first event with effects, or to
    /// `end` where no event has any.
    pub fn since(&self, from: u64) -> Result<Since, NoMemory>
        ensures since { IfOk result (λ since. since ≡ since_in self.now from) }
        ensures writable { IfOk result IsWritable }
    {
        if from < self.first {
            return Ok(Since::Behind(self.first));
        }
        if from >= self.end {
            return Ok(Since::Caught);
        }
        Ok(Since::Frame(self.frame_from(from)?))
    }

    // The frame from a number on, which is kept and has passed.
    fn frame_from(&self, from: u64) -> Result<Frame, NoMemory>
        ensures { IfOk result (λ frame. frame
            ≡ frame_from self.now from (find (λ u. nat_lt from u.to) self.now.units)) }
    {
        match self.units.first_above(from) {
            Some(unit) => Ok(Frame::Unit {
                run: self.run,
                from,
                to: unit.to(),
                effects: unit.effects().copy(self.alloc)?,
            }),
            None => Ok(Frame::Unit {
                run: self.run,
                from,
                to: self.end,
                effects: Sequence::new(self.alloc),
            }),
        }
    }
}
