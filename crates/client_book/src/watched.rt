//! The keys that a client watches.

ghost use Rattle.std.specs.Prelude.{◌≡◌, [], map, IfOk, OnOk, OnErr};
ghost use Rattle.std.specs.Ordering.{nat_cmp};
ghost use Rattle.std.specs.Cmp.Lexicographic.{slice_cmp};
ghost use Rattle.std.specs.BTreeSet.{insert_key};
ghost use Rattle.client_book.specs.Client.{is_among};

use core_types::{Blob, NoMemory, Sequence};
use std::alloc::Global;
use std::collections::BTreeSet;
use std::marker::Model;

/// Keys in byte order, each once.
#[derive(Debug, Drop)]
pub(crate) struct Watched {
    keys: BTreeSet<Vec<u8>>,
}

impl Model for Watched {
    ghost use Rattle.std.specs.Prelude.{List, ℕ, map};

    ghost Value = { List (List ℕ) };

    ghost view = { λ w. map (λ key. key.items) w.keys.keys };
}

impl Watched {
    /// No keys. Takes no memory.
    pub(crate) fn new(alloc: Global) -> Watched
        ensures none { result ≡ [] }
    {
        Watched {
            keys: BTreeSet::new(alloc),
        }
    }

    /// Whether the key is among them.
    pub(crate) fn contains(&self, key: &[u8]) -> bool
        ensures among { result ≡ is_among key.now self.now }
    {
        self.keys.contains(key)
    }

    /// Adds a key. An `Err` changes nothing.
    pub(crate) fn insert(&mut self, alloc: Global, key: &[u8]) -> Result<(), NoMemory>
        ensures ok { OnOk result (self.new ≡ insert_key (slice_cmp nat_cmp) self.old key.now) }
        ensures err { OnErr result (self.new ≡ self.old) }
    {
        let key = Vec::from_slice(alloc, key)?;
        self.keys.insert(key)?;
        Ok(())
    }

    /// The same keys as a list.
    pub(crate) fn copy(&self, alloc: Global) -> Result<Sequence<Blob>, NoMemory>
        ensures same { IfOk result (λ keys. keys ≡ self.now) }
    {
        let mut keys = Sequence::new(alloc);
        for key in &self.keys {
            keys.push(Blob::from_slice(alloc, key)?)?;
        }
        Ok(keys)
    }

    /// The keys, to be gone through.
    pub(crate) fn into_keys(self) -> BTreeSet<Vec<u8>>
        ensures keys { map (λ key. key.items) result.keys ≡ self }
    {
        let Watched { keys } = self;
        keys
    }
}
