//! The clients that have one name.

ghost use Rattle.std.specs.Prelude.{◌≡◌, ◌==◌, ℕ, ◌||◌, IfOk, OnOk, OnErr};
ghost use Rattle.std.specs.FinSet as set;
ghost use Rattle.std.specs.Ordering.{nat_cmp};
ghost use Rattle.std.specs.BTreeSet.{IsOrdered};
ghost use Rattle.key_events.specs.inner.Listing.{Lists};

use sequences::NoMemory;
use std::alloc::Global;
use std::collections::BTreeSet;
use std::marker::Model;

/// The clients that have one name, by number. `insert` and `remove` are
/// O(log n), and take no memory but for a new client.
#[derive(Debug, Drop)]
pub(crate) struct Line {
    clients: BTreeSet<u64>,
}

impl Model for Line {
    ghost use Rattle.std.specs.FinSet.{from_list};
    ghost use Rattle.key_events.specs.inner.Lines.{LineSet, coded_line};

    ghost Value = { LineSet };

    ghost coded = { coded_line };

    ghost view = { λ l. from_list l.clients.keys };
}

impl Line {
    pub(crate) fn new(alloc: Global) -> Line
        ensures empty { result ≡ set.empty }
    {
        Line {
            clients: BTreeSet::new(alloc),
        }
    }

    pub(crate) fn insert(&mut self, client: u64) -> Result<(), NoMemory>
        ensures ok { OnOk result (self.new ≡ set.insert self.old client) }
        ensures err { OnErr result (self.new ≡ self.old) }
    {
        self.clients.insert(client)?;
        Ok(())
    }

    pub(crate) fn remove(&mut self, client: u64)
        ensures removed { self.new ≡ set.remove self.old client }
    {
        let _ = self.clients.remove(&client);
    }

    pub(crate) fn is_empty(&self) -> bool
        ensures empty { result ≡ (set.len self.now == 0) }
    {
        self.clients.len() == 0
    }

    // Adds all of these clients to another line.
    pub(crate) fn join(&self, others: &mut Line) -> Result<(), NoMemory>
        ensures ok { OnOk result ((client : ℕ) → set.contains others.new client
            ≡ (set.contains others.old client || set.contains self.now client)) }
    {
        for client in &self.clients {
            others.insert(*client)?;
        }
        Ok(())
    }

    // A copy, by rising number.
    pub(crate) fn copy(&self, alloc: Global) -> Result<Vec<u64>, NoMemory>
        ensures lists { IfOk result (λ clients. Lists clients.items (set.contains self.now)) }
    {
        copied(alloc, &self.clients)
    }
}

fn copied(alloc: Global, clients: &BTreeSet<u64>) -> Result<Vec<u64>, NoMemory>
    ensures same { IfOk result (λ copies. copies.items ≡ clients.now.keys) }
    ensures ordered { IsOrdered nat_cmp clients.now }
{
    let mut copies = Vec::new(alloc);
    for client in clients {
        copies.push(*client)?;
    }
    Ok(copies)
}
