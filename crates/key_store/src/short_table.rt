//! The tree of the keys with short names.

ghost use Rattle.std.specs.Prelude.{◌≡◌, ◌<◌, ◌^◌, None, map, slice_get, IfOk, IfErr, IfSome, OnOk, OnErr};
ghost use Rattle.std.specs.Option.{option_copied, option_copied_mut, option_map, MatchOption};
ghost use Rattle.std.specs.Borrow.{sem};
ghost use Rattle.std.specs.FinMap as finite;
ghost use Rattle.core_types.specs.Keys.{no_keys, entry_at, with_entry, without, key_count};
ghost use Rattle.key_store.specs.inner.LendsShort.{LendsShort};
ghost use Rattle.key_store.specs.inner.Starts.{entries_from};

use crate::short_name::ShortName;
use crate::stored::Stored;
use std::alloc::Global;
use std::collections::BTreeMap;
use std::collections::btree_map::Range;
use std::marker::Model;
use std::ops::Bound;

/// The keys with short names, which lie in the tree, with what they have.
#[derive(Drop)]
pub(crate) struct ShortTable<N> {
    entries: BTreeMap<ShortName, Stored<N>>,
}

impl<N> Model for ShortTable<N> {
    ghost use Rattle.std.specs.Prelude.{map};
    ghost use Rattle.std.specs.FinMap.{from_entries, code};
    ghost use Rattle.core_types.specs.Keys.{KeysOf};
    ghost use Rattle.key_store.specs.Codes.{bytes_code, entry_code};

    ghost Value = { KeysOf N };

    ghost coded = { code bytes_code (entry_code N.code) };

    ghost view = { λ t. from_entries (map (λ e. (e.0, e.1)) t.entries.entries) };
}

impl<N> ShortTable<N> {
    pub(crate) fn new(alloc: Global) -> ShortTable<N>
        ensures empty { result ≡ no_keys }
    {
        ShortTable {
            entries: BTreeMap::new(alloc),
        }
    }

    // Frees the table, where it has no key.
    pub(crate) fn close(self)
        requires { key_count self ≡ 0 }
    {
        let ShortTable { entries } = self;
        entries.destroy_empty();
    }

    pub(crate) fn get(&self, key: &ShortName) -> Option<&Stored<N>>
        ensures entry { option_copied result ≡ entry_at self.now key.now }
    {
        self.entries.get(key)
    }

    pub(crate) fn len(&self) -> usize
        ensures count { result ≡ key_count self.now }
        ensures small { result < 2 ^ 63 }
    {
        self.entries.len()
    }

    // Takes no memory where the key is there.
    pub(crate) fn insert(
        &mut self,
        key: ShortName,
        stored: Stored<N>,
    ) -> Result<Option<Stored<N>>, (ShortName, Stored<N>)>
        ensures old { IfOk result (λ old. old ≡ entry_at self.old key) }
        ensures ok { OnOk result (self.new ≡ with_entry self.old key stored) }
        ensures back { IfErr result (λ back. back ≡ (key, stored)) }
        ensures absent { OnErr result (entry_at self.old key ≡ None) }
        ensures err { OnErr result (self.new ≡ self.old) }
    {
        match self.entries.insert(key, stored) {
            Ok(old) => Ok(old),
            Err(failed) => Err(failed.value),
        }
    }

    pub(crate) fn remove(&mut self, key: &ShortName) -> Option<(ShortName, Stored<N>)>
        ensures key { IfSome result (λ p. p.0 ≡ key.now) }
        ensures entry { option_map (λ p. p.1) result ≡ entry_at self.old key.now }
        ensures removed { self.new ≡ without self.old key.now }
    {
        self.entries.remove_entry(key)
    }

    // What a key has, to be changed.
    pub(crate) fn get_mut(&mut self, key: &ShortName) -> Option<&mut Stored<N>>
        ensures* writes_back { sem 𝓛 (LendsShort N.row self.entry key.now result) }
        ensures entry { option_copied_mut result ≡ entry_at self.old key.now }
    {
        self.entries.get_mut(key)
    }

    // The name of the first key in byte order.
    pub(crate) fn first(&self) -> Option<&ShortName>
        ensures { option_map (λ key. key.now) result
            ≡ option_map (λ e. e.0) (slice_get (finite.entries self.now) 0) }
    {
        if self.entries.len() == 0 {
            return None;
        }
        match self.entries.first_key_value() {
            Some((key, _)) => Some(key),
            None => None,
        }
    }

    // Takes out the least key.
    pub(crate) fn pop_first(&mut self) -> Option<(ShortName, Stored<N>)>
        ensures first { option_map (λ p. (p.0, p.1)) result
            ≡ slice_get (finite.entries self.old) 0 }
        ensures rest { MatchOption result (self.new ≡ self.old)
            (λ p. self.new ≡ without self.old p.0) }
    {
        self.entries.pop_first()
    }

    // The keys from a name on, or after it.
    pub(crate) fn iter_from(&self, start: Bound<ShortName>) -> Range<'_, ShortName, Stored<N>>
        ensures entries { map (λ e. (e.0, e.1)) result ≡ entries_from self.now start }
    {
        self.entries.range((start, Bound::Unbounded))
    }
}
