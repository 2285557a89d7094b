//! The entries, one after the other.

ghost use Rattle.std.specs.Prelude.{◌≡◌, ◌↔◌, ◌≤◌, ◌<◌, ◌+◌, ◌^◌, ◌∷◌, length, drop};
ghost use Rattle.std.specs.Prelude.{IsTrue, OnOk, IfOk, IfSome, IfNone};
ghost use Rattle.zip_lists.specs.Ziplist.{header_size, end_mark, total_of, IsCount, IsZiplist};
ghost use Rattle.zip_lists.specs.BadPlace.{IsFirstBad};
ghost use Rattle.zip_lists.specs.inner.Fronts.{TellsFirst};
ghost use Rattle.zip_lists.specs.inner.Walking.{HasWalked, IsStep, or_here, pushed};

use crate::content::{Item, read_item};
use crate::header::{COUNT, LAST, SIZE, count, last};
use crate::previous::{Length, read_length};
use sequences::{Args, NoMemory};
use std::alloc::Global;

// The number of entries that says nothing of it.
const ANY_NUMBER: usize = 65_535;

/// What was read of the entries so far.
#[derive(Debug, Drop)]
pub(crate) struct Walk {
    items: Args,
    // Where the next entry begins.
    place: usize,
    // Where the last entry begins, or the first would.
    last: usize,
    // How many bytes the last entry has.
    before: usize,
    // The first place where a length is told that is not the one of the entry before.
    wrong: Option<usize>,
}

/// What came of one step.
#[derive(Clone, Copy, Debug)]
pub(crate) enum Step {
    /// An entry was read.
    Onward,
    /// The end mark stands where the next entry would.
    End,
    /// The bytes are no ziplist: their first bad place.
    Bad(usize),
}

impl Walk {
    /// No entry was read yet. Takes no memory.
    pub(crate) fn new(alloc: Global, bytes: &[u8]) -> Walk
        requires { header_size ≤ length bytes.now }
        ensures { HasWalked bytes.now result }
    {
        Walk {
            items: Args::new(alloc),
            place: SIZE,
            last: SIZE,
            before: 0,
            wrong: None,
        }
    }

    /// The items of the entries.
    pub(crate) fn into_items(self) -> Args
        ensures { result ≡ self.items }
    {
        let Walk { items, .. } = self;
        items
    }

    /// Reads the entry that is due, where there is one.
    pub(crate) fn step(&mut self, bytes: &[u8]) -> Result<Step, NoMemory>
        requires walked { HasWalked bytes.now self.old }
        requires total { total_of bytes.now ≡ length bytes.now }
        ensures { IfOk result (IsStep bytes.now self.old self.new) }
    {
        let (_, rest) = bytes.split_at(self.place);
        match read_length(rest) {
            Length::End => Ok(Step::End),
            Length::Open => Ok(Step::Bad(self.wrong.unwrap_or(bytes.len()))),
            Length::Whole(told, size) => self.read_entry(bytes, told, size),
        }
    }

    // Reads an entry behind the length that it tells, which takes this many bytes.
    fn read_entry(&mut self, bytes: &[u8], told: usize, size: usize) -> Result<Step, NoMemory>
        requires walked { HasWalked bytes.now self.old }
        requires total { total_of bytes.now ≡ length bytes.now }
        requires tells { TellsFirst (drop self.old.place bytes.now) told size }
        ensures { IfOk result (IsStep bytes.now self.old self.new) }
    {
        let wrong = self.first_wrong(told);
        let place = self.place + size;
        let (_, rest) = bytes.split_at(place);
        match read_item(rest) {
            Item::Open => Ok(Step::Bad(wrong.unwrap_or(bytes.len()))),
            Item::Unknown => Ok(Step::Bad(wrong.unwrap_or(place))),
            Item::Text(text, more) => {
                self.push(text, size + more, wrong)?;
                Ok(Step::Onward)
            }
            Item::Number(decimal, more) => {
                self.push(decimal.as_slice(), size + more, wrong)?;
                Ok(Step::Onward)
            }
        }
    }

    // The first place where a length is told that is not the one of the entry before, where the
    // next entry tells this one.
    fn first_wrong(&self, told: usize) -> Option<usize>
        ensures { result ≡ or_here self.now.wrong self.now.before self.now.place told }
    {
        if self.wrong.is_none() && told != self.before {
            return Some(self.place);
        }
        self.wrong
    }

    // Keeps an entry of this many bytes.
    fn push(&mut self, item: &[u8], size: usize, wrong: Option<usize>) -> Result<(), NoMemory>
        requires { self.old.place + size < 2 ^ 64 }
        ensures { OnOk result (self.new ≡ pushed self.old item.now size wrong) }
    {
        self.items.push(item)?;
        self.last = self.place;
        self.before = size;
        self.place += size;
        self.wrong = wrong;
        Ok(())
    }

    /// The first bad place of bytes whose entries were read to the end mark, or `None` where they
    /// are a ziplist.
    pub(crate) fn judge(&self, bytes: &[u8]) -> Option<usize>
        requires walked { HasWalked bytes.now self.now }
        requires total { total_of bytes.now ≡ length bytes.now }
        requires ended { drop self.now.place bytes.now
            ≡ end_mark ∷ drop (self.now.place + 1) bytes.now }
        ensures bad { IfSome result (IsFirstBad bytes.now) }
        ensures ziplist { IfNone result (IsZiplist bytes.now self.now.items) }
    {
        if last(bytes) != self.last {
            return Some(LAST);
        }
        if !is_count(count(bytes), self.items.len()) {
            return Some(COUNT);
        }
        if self.wrong.is_some() {
            return self.wrong;
        }
        let after = self.place + 1;
        if after < bytes.len() {
            return Some(after);
        }
        None
    }
}

// Whether a number that is told says that there are this many entries.
fn is_count(told: usize, entries: usize) -> bool
    ensures { IsTrue result ↔ IsCount told entries }
{
    told == ANY_NUMBER || told == entries
}
