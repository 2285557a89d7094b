//! The keys of the store, by the length of their names.

ghost use Rattle.std.specs.Prelude.{◌≡◌, ◌≢◌, ◌<◌, ◌^◌, None, Some, IsSome, slice_get, IfOk, IfErr, IfSome, OnOk, OnErr};
ghost use Rattle.std.specs.Option.{option_copied, option_copied_mut, option_map, MatchOption};
ghost use Rattle.std.specs.Borrow.{sem};
ghost use Rattle.std.specs.Range.Bound.{bound_map};
ghost use Rattle.std.specs.FinMap as finite;
ghost use Rattle.core_types.specs.Keys.{no_keys, entry_at, deadline_at, with_deadline, with_entry, with_value, without, renamed, key_count};
ghost use Rattle.key_store.specs.inner.Held.{held};
ghost use Rattle.key_store.specs.inner.Lending.{LendsEntry};
ghost use Rattle.key_store.specs.Listing.{listed_from};

use crate::entries::{Entries, comes_first};
use crate::long_table::LongTable;
use crate::name::{Name, Place};
use crate::short_name::{ShortName, is_short};
use crate::short_table::ShortTable;
use crate::start::short_start;
use crate::stored::Stored;
use core_types::{NoMemory, Value};
use std::alloc::Global;
use std::marker::Model;
use std::ops::Bound;

/// What a renaming leaves over.
pub(crate) struct Renamed<N> {
    /// The name that the key had.
    pub name: Name,
    /// What its new name had.
    pub before: Option<Stored<N>>,
}

/// The keys with what they have. Those with short names and those with long ones stand in a tree
/// each, so that no look-up takes memory.
#[derive(Drop)]
pub(crate) struct Table<N> {
    short: ShortTable<N>,
    long: LongTable<N>,
}

impl<N> Model for Table<N> {
    ghost use Rattle.std.specs.FinMap.{code};
    ghost use Rattle.core_types.specs.Keys.{KeysOf};
    ghost use Rattle.key_store.specs.Codes.{bytes_code, entry_code};
    ghost use Rattle.key_store.specs.inner.Halves.{both, AreHalves};

    ghost Value = { KeysOf N };

    ghost coded = { code bytes_code (entry_code N.code) };

    ghost view = { λ t. both t.short t.long };

    ghost invariant = { λ t. AreHalves t.short t.long };
}

impl<N> Table<N> {
    pub(crate) fn new(alloc: Global) -> Table<N>
        ensures empty { result ≡ no_keys }
    {
        Table {
            short: ShortTable::new(alloc),
            long: LongTable::new(alloc),
        }
    }

    // Frees the table, where it has no key.
    pub(crate) fn close(self)
        requires { key_count self ≡ 0 }
    {
        let Table { short, long } = self;
        short.close();
        long.close();
    }

    pub(crate) fn get(&self, key: &[u8]) -> Option<&Stored<N>>
        ensures entry { option_copied result ≡ entry_at self.now key.now }
    {
        if is_short(key) {
            self.short.get(&ShortName::new(key))
        } else {
            self.long.get(key)
        }
    }

    pub(crate) fn len(&self) -> u64
        ensures count { result ≡ key_count self.now }
        ensures small { result < 2 ^ 63 }
    {
        self.short.len() as u64 + self.long.len() as u64
    }

    // The memory of a machine ends long before the keys are counted out.
    pub(crate) fn insert(
        &mut self,
        key: Name,
        stored: Stored<N>,
    ) -> Result<Option<Stored<N>>, Stored<N>>
        ensures old { IfOk result (λ old. old ≡ entry_at self.old key) }
        ensures ok { OnOk result (self.new ≡ with_entry self.old key stored) }
        ensures back { IfErr result (λ back. back ≡ stored) }
        ensures err { OnErr result (self.new ≡ self.old) }
    {
        if self.len() == 0x7fff_ffff_ffff_ffff {
            return Err(stored);
        }
        match key.into_place() {
            Place::Here(key) => match self.short.insert(key, stored) {
                Ok(old) => Ok(old),
                Err((_, stored)) => Err(stored),
            },
            Place::Away(key) => match self.long.insert(key, stored) {
                Ok(old) => Ok(old),
                Err((_, stored)) => Err(stored),
            },
        }
    }

    pub(crate) fn remove(&mut self, key: &[u8]) -> Option<(Name, Stored<N>)>
        ensures key { IfSome result (λ p. p.0 ≡ key.now) }
        ensures entry { option_map (λ p. p.1) result ≡ entry_at self.old key.now }
        ensures removed { self.new ≡ without self.old key.now }
    {
        if is_short(key) {
            match self.short.remove(&ShortName::new(key)) {
                Some((key, stored)) => Some((Name::here(key), stored)),
                None => None,
            }
        } else {
            match self.long.remove(key) {
                Some((key, stored)) => Some((Name::away(key), stored)),
                None => None,
            }
        }
    }

    // What a key has, to be changed.
    pub(crate) fn get_mut(&mut self, key: &[u8]) -> Option<&mut Stored<N>>
        ensures* writes_back { sem 𝓛 (LendsEntry N.row self.entry key.now result) }
        ensures entry { option_copied_mut result ≡ entry_at self.old key.now }
    {
        if is_short(key) {
            match self.short.get_mut(&ShortName::new(key)) {
                Some(stored) => Some(stored),
                None => None,
            }
        } else {
            match self.long.get_mut(key) {
                Some(stored) => Some(stored),
                None => None,
            }
        }
    }

    // Puts this in the place of what a key has, and gives that back. Takes no memory.
    pub(crate) fn exchange(&mut self, key: &[u8], stored: Stored<N>) -> Stored<N>
        requires there { IsSome (entry_at self.old key.now) }
        ensures before { Some result ≡ entry_at self.old key.now }
        ensures after { self.new ≡ with_entry self.old key.now stored }
    {
        match self.get_mut(key) {
            Some(before) => before.exchange(stored),
            None => unreachable!(),
        }
    }

    // Gives a key this deadline, or none, where it is there, and gives back the one that it had. Takes
    // no memory.
    pub(crate) fn set_deadline(&mut self, key: &[u8], at: Option<u64>) -> Option<u64>
        requires positive { at ≢ Some 0 }
        ensures before { result ≡ deadline_at self.old key.now }
        ensures positive { result ≢ Some 0 }
        ensures set { self.new ≡ with_deadline self.old key.now at }
    {
        match self.get_mut(key) {
            Some(stored) => stored.set_deadline(at),
            None => None,
        }
    }

    // Takes out the least key.
    pub(crate) fn pop_first(&mut self) -> Option<(Name, Stored<N>)>
        ensures first { result ≡ slice_get (finite.entries self.old) 0 }
        ensures rest { MatchOption result (self.new ≡ self.old)
            (λ p. self.new ≡ without self.old p.0) }
    {
        if comes_first(self.short.first(), self.long.first()) {
            match self.short.pop_first() {
                Some((key, stored)) => Some((Name::here(key), stored)),
                None => None,
            }
        } else {
            match self.long.pop_first() {
                Some((key, stored)) => Some((Name::away(key), stored)),
                None => None,
            }
        }
    }

    // The keys from a name on, or after it, in byte order, each with its value.
    pub(crate) fn iter_from(&self, start: Bound<&Vec<u8>>) -> Entries<'_, N>
        ensures listed { result
            ≡ listed_from self.now (bound_map (λ name. name.now.items) start.entry) }
    {
        let short = self.short.iter_from(short_start(start));
        Entries::new(short, self.long.iter_from(start))
    }

    // Moves what one key has to another.
    pub(crate) fn rename(
        &mut self,
        alloc: Global,
        from: &[u8],
        to: &[u8],
    ) -> Result<Renamed<N>, NoMemory>
        requires there { IsSome (entry_at self.old from.now) }
        requires apart { from.now ≢ to.now }
        ensures name { IfOk result (λ done. done.name ≡ from.now) }
        ensures before { IfOk result (λ done. done.before ≡ entry_at self.old to.now) }
        ensures ok { OnOk result (self.new ≡ renamed self.old from.now to.now) }
        ensures err { OnErr result (self.new ≡ self.old) }
    {
        let before = self.hold(alloc, to)?;
        let Some((name, stored)) = self.remove(from) else {
            unreachable!()
        };
        self.exchange(to, stored).discard();
        Ok(Renamed { name, before })
    }

    // Puts an empty string under a key, which takes the memory that the key needs.
    fn hold(&mut self, alloc: Global, key: &[u8]) -> Result<Option<Stored<N>>, NoMemory>
        ensures before { IfOk result (λ before. before ≡ entry_at self.old key.now) }
        ensures ok { OnOk result (self.new ≡ with_entry self.old key.now held) }
        ensures err { OnErr result (self.new ≡ self.old) }
    {
        match self.insert(Name::new(alloc, key)?, Stored::held(alloc)) {
            Ok(before) => Ok(before),
            Err(held) => {
                held.discard();
                Err(NoMemory)
            }
        }
    }
}
