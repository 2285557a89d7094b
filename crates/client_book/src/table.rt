//! What is done to the entries of the table of clients.

ghost use Rattle.std.specs.Prelude.{◌≡◌, ℕ, false, map, IfOk};
ghost use Rattle.std.specs.Option.{option_map};
ghost use Rattle.std.specs.Ordering.{nat_cmp};
ghost use Rattle.std.specs.BTreeMap.{get};
ghost use Rattle.std.specs.BTreeSet.{contains};
ghost use Rattle.client_book.specs.inner.Entry.{client_of, marked, BecomesAt, BecomesAll};

use crate::Client;
use crate::entry::Entry;
use core_types::NoMemory;
use std::alloc::Global;
use std::collections::{BTreeMap, BTreeSet};

/// Marks the listed clients that watch a key.
pub(crate) fn mark_all(clients: &mut BTreeMap<u64, Entry>, watching: &BTreeSet<u64>, key: &[u8])
    requires others { (client : ℕ) → contains nat_cmp watching.now client ≡ false →
        option_map (marked key.now) (get nat_cmp clients.old client)
        ≡ get nat_cmp clients.old client }
    ensures marked { BecomesAll (marked key.now) clients.old clients.new }
{
    for client in watching {
        mark(clients, *client, key);
    }
}

// Marks one client, if it watches a key.
fn mark(clients: &mut BTreeMap<u64, Entry>, client: u64, key: &[u8])
    ensures marked { BecomesAt client (marked key.now) clients.old clients.new }
{
    if let Some(entry) = clients.get_mut(&client) {
        if entry.watched.contains(key) {
            entry.touched = true;
        }
    }
}

/// A copy of each record, with its number.
pub(crate) fn copy_records(
    alloc: Global,
    clients: &BTreeMap<u64, Entry>,
) -> Result<Vec<(u64, Client)>, NoMemory>
    ensures same { IfOk result
        (λ records. records.items ≡ map (λ e. (e.0, client_of e.1)) clients.now.entries) }
{
    let mut records = Vec::new(alloc);
    for (client, entry) in clients {
        records.push((*client, entry.copy(alloc)?))?;
    }
    Ok(records)
}
