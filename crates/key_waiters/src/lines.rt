//! The tickets that wait, by their keys.

ghost use Rattle.std.specs.Prelude.{◌≡◌, ◌==◌, false, None, OnOk, OnErr};
ghost use Rattle.std.specs.Option.{option_map_or};
ghost use Rattle.std.specs.Ordering.{nat_cmp};
ghost use Rattle.std.specs.Cmp.Lexicographic.{slice_cmp};
ghost use Rattle.std.specs.BTreeMap.{UpdatesBy};
ghost use Rattle.std.specs.FinMap as map;
ghost use Rattle.std.specs.FinSet as set;
ghost use Rattle.key_waiters.specs.inner.Lines.{with_place, without_place, holds, line_in};
ghost use Rattle.key_waiters.specs.inner.Lines.{Rewrites};
ghost use Rattle.key_waiters.specs.inner.Places.{IsFirstOf};

use crate::line::Line;
use sequences::NoMemory;
use std::alloc::Global;
use std::collections::BTreeMap;
use std::marker::Model;

/// The tickets that wait on each key on which one does. Every call is O(log n); only `insert` takes
/// memory.
#[derive(Debug, Drop)]
pub(crate) struct Lines {
    lines: BTreeMap<Vec<u8>, Line>,
}

impl Model for Lines {
    ghost use Rattle.std.specs.Prelude.{map};
    ghost use Rattle.std.specs.FinMap.{from_entries};
    ghost use Rattle.key_waiters.specs.inner.Lines.{LinesMap, coded_lines};

    ghost Value = { LinesMap };

    ghost coded = { coded_lines };

    ghost view = { λ l. from_entries (map (λ e. (e.0.items, e.1)) l.lines.entries) };
}

impl Lines {
    pub(crate) fn new(alloc: Global) -> Lines
        ensures empty { result ≡ map.empty }
    {
        Lines {
            lines: BTreeMap::new(alloc),
        }
    }

    pub(crate) fn insert(&mut self, alloc: Global, key: &[u8], ticket: u64) -> Result<(), NoMemory>
        ensures ok { OnOk result (self.new ≡ with_place self.old key.now ticket) }
        ensures err { OnErr result (self.new ≡ self.old) }
    {
        if self.lines.contains_key(key) {
            return add(&mut self.lines, key, ticket);
        }
        let name = Vec::from_slice(alloc, key)?;
        let mut line = Line::new(alloc);
        line.insert(ticket)?;
        self.lines.insert(name, line)?;
        Ok(())
    }

    pub(crate) fn remove(&mut self, key: &[u8], ticket: u64)
        ensures removed { self.new ≡ without_place self.old key.now ticket }
    {
        if take(&mut self.lines, key, ticket) {
            cut(&mut self.lines, key);
        }
    }

    // The first ticket of a key above a number, or `None` where there is none.
    pub(crate) fn first(&self, key: &[u8], above: u64) -> Option<u64>
        ensures first { IsFirstOf (holds self.now key.now) above result }
    {
        match self.lines.get(key) {
            Some(line) => line.first(above),
            None => None,
        }
    }
}

// Adds a ticket to the line of a key that is there.
fn add(lines: &mut BTreeMap<Vec<u8>, Line>, key: &[u8], ticket: u64) -> Result<(), NoMemory>
    ensures ok { OnOk result (Rewrites lines.old lines.new key.now (λ s. set.insert s ticket)) }
    ensures err { OnErr result (Rewrites lines.old lines.new key.now (λ s. s)) }
{
    match lines.get_mut(key) {
        Some(line) => line.insert(ticket),
        None => Ok(()),
    }
}

// Takes a ticket out of the line of a key, and says whether the line is there and empty now.
fn take(lines: &mut BTreeMap<Vec<u8>, Line>, key: &[u8], ticket: u64) -> bool
    ensures taken { Rewrites lines.old lines.new key.now (λ s. set.remove s ticket) }
    ensures empty { result ≡ option_map_or (λ s. set.len (set.remove s ticket) == 0)
        (line_in lines.old key.now) false }
{
    match lines.get_mut(key) {
        Some(line) => {
            line.remove(ticket);
            line.is_empty()
        }
        None => false,
    }
}

// Takes out the line of a key.
fn cut(lines: &mut BTreeMap<Vec<u8>, Line>, key: &[u8])
    ensures { UpdatesBy (λ a b. slice_cmp nat_cmp a.items b.items)
        (λ k. slice_cmp nat_cmp key.now k.items) lines.old lines.new None }
{
    let _ = lines.remove(key);
}
