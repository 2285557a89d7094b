//! Which file each name stands for, and how that changes.

ghost use Rattle.std.specs.Prelude.{◌≡◌, Option, Some, None};
ghost use Rattle.std.specs.Option.{option_copied};
ghost use Rattle.disk_model.specs.Disk.{number_of, with_number, renamed, after_renames, if_there, NameChange as Spoken};
ghost use Rattle.disk_model.specs.Files.{Files};

use crate::FileName;
use crate::memory::contents::Contents;
use sequences::Blob;
use std::marker::Model;

/// The number of the file that each name stands for, where it stands for one.
#[derive(Clone, Copy)]
pub(crate) struct Names {
    log: Option<usize>,
    log_temp: Option<usize>,
    dump: Option<usize>,
    dump_temp: Option<usize>,
}

impl Model for Names {
    ghost use Rattle.disk_model.specs.Disk.{Names};

    ghost Value = { Names };

    ghost view = { λ n. record {
      log = n.log;
      log_temp = n.log_temp;
      dump = n.dump;
      dump_temp =
          n.dump_temp;
    } };

    ghost inverse = { λ n. record {
      log = n.log;
      log_temp = n.log_temp;
      dump = n.dump;
      dump_temp =
          n.dump_temp;
    } };
}

/// A change of the names.
#[derive(Drop)]
pub(crate) struct NameChange {
    what: WhatChanged,
}

#[derive(Drop)]
enum WhatChanged {
    // A name stands for a new file.
    Created(FileName, usize),
    // A file moved from the first name to the second.
    Renamed(FileName, FileName),
}

impl Model for NameChange {
    ghost use Rattle.disk_model.specs.Disk.{NameChange};
    ghost use Rattle.disk_model.specs.inner.Copied.{name_change_of};

    ghost Value = { NameChange };

    ghost view = { λ c. name_change_of c.what };
}

impl NameChange {
    /// The name stands for the new file of this number.
    pub(crate) fn created(name: FileName, number: usize) -> NameChange
        ensures created { result ≡ Spoken.Created name number }
    {
        NameChange {
            what: WhatChanged::Created(name, number),
        }
    }

    /// A file moved to another name.
    pub(crate) fn renamed(from: FileName, to: FileName) -> NameChange
        ensures renamed { result ≡ Spoken.Renamed from to }
    {
        NameChange {
            what: WhatChanged::Renamed(from, to),
        }
    }
}

impl Names {
    /// Each file that is there has the number of its place among the four.
    pub(crate) fn of(files: &Contents) -> Names
        ensures log { result.log ≡ if_there files.now.log 0 }
        ensures log_temp { result.log_temp ≡ if_there files.now.log_temp 1 }
        ensures dump { result.dump ≡ if_there files.now.dump 2 }
        ensures dump_temp { result.dump_temp ≡ if_there files.now.dump_temp 3 }
    {
        Names {
            log: number_where_there(files.get(FileName::Log), 0),
            log_temp: number_where_there(files.get(FileName::LogTemp), 1),
            dump: number_where_there(files.get(FileName::Dump), 2),
            dump_temp: number_where_there(files.get(FileName::DumpTemp), 3),
        }
    }

    /// The number of the file that a name stands for.
    pub(crate) fn get(&self, name: FileName) -> Option<usize>
        ensures number { result ≡ number_of name self.now }
    {
        match name {
            FileName::Log => self.log,
            FileName::LogTemp => self.log_temp,
            FileName::Dump => self.dump,
            FileName::DumpTemp => self.dump_temp,
        }
    }

    // Makes a name stand for another file, or for none.
    fn set(&mut self, name: FileName, number: Option<usize>)
        ensures number { self.new ≡ with_number name number self.old }
    {
        match name {
            FileName::Log => self.log = number,
            FileName::LogTemp => self.log_temp = number,
            FileName::Dump => self.dump = number,
            FileName::DumpTemp => self.dump_temp = number,
        }
    }

    // Makes one change.
    fn change(&mut self, change: &NameChange)
        ensures renamed { self.new ≡ renamed self.old change.now }
    {
        match &change.what {
            WhatChanged::Created(name, number) => self.set(*name, Some(*number)),
            WhatChanged::Renamed(from, to) => {
                let moved = self.get(*from);
                self.set(*from, None);
                self.set(*to, moved);
            }
        }
    }

    /// Makes the changes in order.
    pub(crate) fn change_all(&mut self, changes: &[NameChange])
        ensures renamed { self.new ≡ after_renames self.old changes.now }
    {
        for change in changes {
            self.change(change);
        }
    }
}

// The number of a file, where it is there.
fn number_where_there(bytes: Option<&Blob>, number: usize) -> Option<usize>
    ensures number { result ≡ if_there (option_copied bytes.entry) number }
{
    match bytes {
        Some(_) => Some(number),
        None => None,
    }
}
