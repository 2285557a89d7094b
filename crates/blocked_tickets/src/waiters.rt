//! The ticket on which each client waits.

ghost use Rattle.std.specs.Prelude.{◌≡◌, OnOk, OnErr};
ghost use Rattle.std.specs.FinMap as map;
ghost use Rattle.blocked_tickets.specs.inner.Entering.{without_client};

use sequences::NoMemory;
use std::alloc::Global;
use std::collections::BTreeMap;
use std::marker::Model;

/// The number of the Waiting ticket of each client that has one. Every call is O(log n); only
/// `insert` takes memory.
#[derive(Debug, Drop)]
pub(crate) struct Waiters {
    tickets: BTreeMap<u64, u64>,
}

impl Model for Waiters {
    ghost use Rattle.std.specs.Prelude.{ℕ};
    ghost use Rattle.std.specs.Ordering.{nat_cmp};
    ghost use Rattle.std.specs.Coded.{coded_ℕ};
    ghost use Rattle.std.specs.FinMap.{FinMap, from_entries, code};

    ghost Value = { FinMap nat_cmp ℕ };

    ghost coded = { code coded_ℕ coded_ℕ };

    ghost view = { λ w. from_entries w.tickets.entries };
}

impl Waiters {
    pub(crate) fn new(alloc: Global) -> Waiters
        ensures empty { result ≡ map.empty }
    {
        Waiters {
            tickets: BTreeMap::new(alloc),
        }
    }

    pub(crate) fn get(&self, client: u64) -> Option<u64>
        ensures ticket { result ≡ map.get self.now client }
    {
        self.tickets.get(&client).copied()
    }

    pub(crate) fn insert(&mut self, client: u64, ticket: u64) -> Result<(), NoMemory>
        ensures ok { OnOk result (self.new ≡ map.insert self.old client ticket) }
        ensures err { OnErr result (self.new ≡ self.old) }
    {
        self.tickets.insert(client, ticket)?;
        Ok(())
    }

    // Takes a client out, where one is named.
    pub(crate) fn remove(&mut self, client: Option<u64>)
        ensures removed { self.new ≡ without_client self.old client }
    {
        if let Some(client) = client {
            let _ = self.tickets.remove(&client);
        }
    }
}
