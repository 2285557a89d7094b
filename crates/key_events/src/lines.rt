//! The clients that have a name, by their names.

ghost use Rattle.std.specs.Prelude.{◌≡◌, ◌==◌, ℕ, false, None, IfOk, OnOk, OnErr};
ghost use Rattle.std.specs.Option.{option_map_or};
ghost use Rattle.std.specs.Ordering.{nat_cmp};
ghost use Rattle.std.specs.Cmp.Lexicographic.{slice_cmp};
ghost use Rattle.std.specs.BTreeMap.{UpdatesBy};
ghost use Rattle.std.specs.FinMap as map;
ghost use Rattle.std.specs.FinSet as set;
ghost use Rattle.key_events.specs.inner.Lines.{with_place, without_place, holds, line_in};
ghost use Rattle.key_events.specs.inner.Lines.{Rewrites};
ghost use Rattle.key_events.specs.inner.Lines.{is_found};
ghost use Rattle.key_events.specs.inner.Listing.{Leaves, Lists, Finds};

use crate::line::Line;
use crate::matches;
use sequences::{Blob, NoMemory};
use std::alloc::Global;
use std::collections::BTreeMap;
use std::marker::Model;

/// The clients that have each name which one has. `insert` and `remove` are O(log n); only `insert`
/// takes memory, and the lists of clients that are given out.
#[derive(Debug, Drop)]
pub(crate) struct Lines {
    lines: BTreeMap<Vec<u8>, Line>,
}

impl Model for Lines {
    ghost use Rattle.std.specs.Prelude.{map};
    ghost use Rattle.std.specs.FinMap.{from_entries};
    ghost use Rattle.key_events.specs.inner.Lines.{LinesMap, coded_lines};

    ghost Value = { LinesMap };

    ghost coded = { coded_lines };

    ghost view = { λ l. from_entries (map (λ e. (e.0.items, e.1)) l.lines.entries) };
}

impl Lines {
    pub(crate) fn new(alloc: Global) -> Lines
        ensures empty { result ≡ map.empty }
    {
        Lines {
            lines: BTreeMap::new(alloc),
        }
    }

    pub(crate) fn insert(&mut self, alloc: Global, name: &[u8], client: u64) -> Result<(), NoMemory>
        ensures ok { OnOk result (self.new ≡ with_place self.old name.now client) }
        ensures err { OnErr result (self.new ≡ self.old) }
    {
        if self.lines.contains_key(name) {
            return add(&mut self.lines, name, client);
        }
        let copy = Vec::from_slice(alloc, name)?;
        let mut line = Line::new(alloc);
        line.insert(client)?;
        self.lines.insert(copy, line)?;
        Ok(())
    }

    pub(crate) fn remove(&mut self, name: &[u8], client: u64)
        ensures removed { self.new ≡ without_place self.old name.now client }
    {
        if take(&mut self.lines, name, client) {
            cut(&mut self.lines, name);
        }
    }

    // Takes a client out of the lines of these names.
    pub(crate) fn remove_all(&mut self, names: &[Blob], client: u64)
        ensures left { Leaves names.now client self.old self.new }
    {
        for name in names {
            self.remove(name.as_slice(), client);
        }
    }

    // The clients that stand in the line of a name, by rising number.
    pub(crate) fn clients(&self, alloc: Global, name: &[u8]) -> Result<Vec<u64>, NoMemory>
        ensures lists { IfOk result (λ clients. Lists clients.items (holds self.now name.now)) }
    {
        match self.lines.get(name) {
            Some(line) => line.copy(alloc),
            None => Ok(Vec::new(alloc)),
        }
    }

    // The clients that stand in the line of a name that matches a text, by rising number.
    pub(crate) fn matching(&self, alloc: Global, text: &[u8]) -> Result<Vec<u64>, NoMemory>
        ensures finds { IfOk result (λ clients. Finds clients.items self.now text.now) }
    {
        let found = matching(alloc, &self.lines, text)?;
        found.copy(alloc)
    }
}

// All who stand in the line of a name that matches a text.
fn matching(alloc: Global, lines: &BTreeMap<Vec<u8>, Line>, text: &[u8]) -> Result<Line, NoMemory>
    ensures found { IfOk result (λ line. (client : ℕ) → set.contains line client
        ≡ is_found text.now client lines.now.entries) }
{
    let mut found = Line::new(alloc);
    for (pattern, line) in lines {
        if matches(pattern, text) {
            line.join(&mut found)?;
        }
    }
    Ok(found)
}

// Adds a client to the line of a name that is there.
fn add(lines: &mut BTreeMap<Vec<u8>, Line>, name: &[u8], client: u64) -> Result<(), NoMemory>
    ensures ok { OnOk result (Rewrites lines.old lines.new name.now (λ s. set.insert s client)) }
    ensures err { OnErr result (Rewrites lines.old lines.new name.now (λ s. s)) }
{
    match lines.get_mut(name) {
        Some(line) => line.insert(client),
        None => Ok(()),
    }
}

// Takes a client out of the line of a name, and says whether the line is there and empty now.
fn take(lines: &mut BTreeMap<Vec<u8>, Line>, name: &[u8], client: u64) -> bool
    ensures taken { Rewrites lines.old lines.new name.now (λ s. set.remove s client) }
    ensures empty { result ≡ option_map_or (λ s. set.len (set.remove s client) == 0)
        (line_in lines.old name.now) false }
{
    match lines.get_mut(name) {
        Some(line) => {
            line.remove(client);
            line.is_empty()
        }
        None => false,
    }
}

// Takes out the line of a name.
fn cut(lines: &mut BTreeMap<Vec<u8>, Line>, name: &[u8])
    ensures { UpdatesBy (λ a b. slice_cmp nat_cmp a.items b.items)
        (λ k. slice_cmp nat_cmp name.now k.items) lines.old lines.new None }
{
    let _ = lines.remove(name);
}
