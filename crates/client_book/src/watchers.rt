//! Which clients watch a key.

ghost use Rattle.std.specs.Prelude.{◌≡◌, ℕ, true, false, List, OnOk};
ghost use Rattle.std.specs.Option.{option_copied};

use crate::watched::Watched;
use core_types::NoMemory;
use std::alloc::Global;
use std::collections::{BTreeMap, BTreeSet};

/// For each watched key the clients that watch it. What watches is in the client's own record too,
/// from which it is known which keys to forget.
#[derive(Debug, Drop)]
pub(crate) struct Watchers {
    pub(crate) clients: BTreeMap<Vec<u8>, BTreeSet<u64>>,
}

impl Watchers {
    ghost use Rattle.client_book.specs.Client.{is_among};
    ghost use Rattle.client_book.specs.inner.Watching.{watchers_of, is_listed, Keeps, KeepsOthers, KeepsAllBut};

    /// No watched keys. Takes no memory.
    pub(crate) fn new(alloc: Global) -> Watchers {
        Watchers {
            clients: BTreeMap::new(alloc),
        }
    }

    /// The clients that are listed for a key.
    pub(crate) fn of(&self, key: &[u8]) -> Option<&BTreeSet<u64>>
        ensures listed { option_copied result ≡ watchers_of self.now key.now }
    {
        self.clients.get(key)
    }

    /// Lists a client for a key.
    pub(crate) fn add(&mut self, alloc: Global, key: &[u8], client: u64) -> Result<(), NoMemory>
        ensures added { OnOk result (is_listed self.new key.now client ≡ true) }
        ensures kept { Keeps self.old self.new }
    {
        if let Some(clients) = self.clients.get_mut(key) {
            clients.insert(client)?;
            return Ok(());
        }
        let mut clients = BTreeSet::new(alloc);
        clients.insert(client)?;
        self.clients.insert(Vec::from_slice(alloc, key)?, clients)?;
        Ok(())
    }

    /// Lists a client for a key no longer.
    pub(crate) fn remove(&mut self, key: &[u8], client: u64)
        ensures gone { is_listed self.new key.now client ≡ false }
        ensures no_other { Keeps self.new self.old }
        ensures kept { KeepsOthers key.now client self.old self.new }
    {
        let Some(clients) = self.clients.get_mut(key) else {
            return;
        };
        clients.remove(&client);
        if clients.is_empty() {
            self.clients.remove(key);
        }
    }

    /// Lists a client for these keys no longer.
    pub(crate) fn forget(&mut self, keys: Watched, client: u64)
        ensures gone { (key : List ℕ) → is_among key keys ≡ true
            → is_listed self.new key client ≡ false }
        ensures no_other { Keeps self.new self.old }
        ensures kept { KeepsAllBut client self.old self.new }
    {
        for key in keys.into_keys() {
            self.remove(&key, client);
        }
    }
}
