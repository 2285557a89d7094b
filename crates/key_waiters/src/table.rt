//! The tickets that wait, by their numbers.

ghost use Rattle.std.specs.Prelude.{◌≡◌, OnOk, OnErr};
ghost use Rattle.std.specs.Option.{option_copied};
ghost use Rattle.std.specs.FinMap as map;

use sequences::{Blob, NoMemory};
use std::alloc::Global;
use std::collections::BTreeMap;
use std::marker::Model;

/// The key of each ticket that waits. Every call is O(log n); only `insert` takes memory.
#[derive(Debug, Drop)]
pub(crate) struct Table {
    keys: BTreeMap<u64, Blob>,
}

impl Model for Table {
    ghost use Rattle.std.specs.FinMap.{from_entries};
    ghost use Rattle.key_waiters.specs.Waiting.{Waiting, coded_waiting};

    ghost Value = { Waiting };

    ghost coded = { coded_waiting };

    ghost view = { λ t. from_entries t.keys.entries };
}

impl Table {
    pub(crate) fn new(alloc: Global) -> Table
        ensures empty { result ≡ map.empty }
    {
        Table {
            keys: BTreeMap::new(alloc),
        }
    }

    pub(crate) fn get(&self, ticket: u64) -> Option<&Blob>
        ensures key { option_copied result ≡ map.get self.now ticket }
    {
        self.keys.get(&ticket)
    }

    pub(crate) fn insert(&mut self, ticket: u64, key: Blob) -> Result<(), NoMemory>
        ensures ok { OnOk result (self.new ≡ map.insert self.old ticket key) }
        ensures err { OnErr result (self.new ≡ self.old) }
    {
        match self.keys.insert(ticket, key) {
            Ok(_) => Ok(()),
            Err(_) => Err(NoMemory),
        }
    }

    pub(crate) fn remove(&mut self, ticket: u64) -> Option<Blob>
        ensures key { result ≡ map.get self.old ticket }
        ensures removed { self.new ≡ map.remove self.old ticket }
    {
        self.keys.remove(&ticket)
    }
}
