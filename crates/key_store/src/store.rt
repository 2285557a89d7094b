//! The store of keys.

ghost use Rattle.std.specs.Prelude.{◌≡◌, ◌≢◌, ◌<◌, ◌^◌, None, Some, slice_get, length, IsSome, IfOk, IfErr, OnOk, OnErr};
ghost use Rattle.std.specs.Option.{option_copied, option_copied_mut, option_map, MatchOption};
ghost use Rattle.std.specs.Borrow.{sem};
ghost use Rattle.std.specs.Range.Bound.{bound_map};
ghost use Rattle.core_types.specs.Keys.{no_keys, value_at, deadline_at, with_value, with_deadline, without, renamed, key_count};
ghost use Rattle.key_store.specs.Lending.{LendsValueOf};
ghost use Rattle.key_store.specs.Listing.{listed, listed_from};
ghost use Rattle.key_store.specs.NextDue.{IsNextDue, next_due};

use crate::due::{Dues, unless_same};
use crate::stored::Stored;
use crate::table::{Renamed, Table};
use crate::{Entries, Name, PutBack};
use core_types::{Blob, NoMemory, Value};
use std::alloc::Global;
use std::marker::Model;
use std::ops::Bound;

/// The keys, each with a value and with the moment at which it is due, where it has one.
#[derive(Drop)]
pub struct KeyStore<N> {
    table: Table<N>,
    dues: Dues,
    alloc: Global,
}

impl<N> Model for KeyStore<N> {
    ghost use Rattle.std.specs.FinMap.{code};
    ghost use Rattle.core_types.specs.Keys.{KeysOf};
    ghost use Rattle.key_store.specs.Codes.{bytes_code, entry_code};
    ghost use Rattle.key_store.specs.inner.Index.{IsIndexed};

    ghost Value = { KeysOf N };

    ghost coded = { code bytes_code (entry_code N.code) };

    ghost view = { λ s. s.table };

    ghost invariant = { λ s. IsIndexed s.dues s.table };
}

impl<N> KeyStore<N> {
    /// No keys. Takes no memory.
    pub fn new(alloc: Global) -> KeyStore<N>
        ensures empty { result ≡ no_keys }
    {
        KeyStore {
            table: Table::new(alloc),
            dues: Dues::new(alloc),
            alloc,
        }
    }

    /// Ends a store without keys, also where its values are of a type that is not dropped.
    pub fn close(self)
        requires empty { key_count self ≡ 0 }
    {
        let KeyStore {
            table,
            dues: _,
            alloc: _,
        } = self;
        table.close();
    }

    /// The value of a key, or `None` where the key is not there.
    pub fn get(&self, key: &[u8]) -> Option<&Value<N>>
        ensures value { option_copied result ≡ value_at self.now key.now }
    {
        match self.table.get(key) {
            Some(stored) => Some(stored.value()),
            None => None,
        }
    }

    /// The value of a key, to be changed in its place, or `None` where the key is not there. The
    /// key keeps its deadline.
    pub fn get_mut(&mut self, key: &[u8]) -> Option<&mut Value<N>>
        ensures* writes_back { sem 𝓛 (LendsValueOf N.row self.entry key.now result) }
        ensures value { option_copied_mut result ≡ value_at self.old key.now }
    {
        match self.table.get_mut(key) {
            Some(stored) => Some(stored.value_mut()),
            None => None,
        }
    }

    /// Takes a key out with its deadline, and gives its value, or `None` where the key is not
    /// there.
    pub fn take(&mut self, key: &[u8]) -> Option<Value<N>>
        ensures value { result ≡ value_at self.old key.now }
        ensures taken { self.new ≡ without self.old key.now }
    {
        match self.table.remove(key) {
            Some((key, stored)) => {
                self.dues.forget(key, stored.deadline());
                Some(stored.into_value())
            }
            None => None,
        }
    }

    /// Gives a key this value and no deadline, and gives back the value that it had. An `Err`
    /// changes nothing, and gives the key and the value back.
    pub fn put(&mut self, key: Blob, value: Value<N>) -> Result<Option<Value<N>>, PutBack<N>>
        ensures before { IfOk result (λ before. before ≡ value_at self.old key) }
        ensures ok { OnOk result (self.new ≡ with_value self.old key value) }
        ensures key_back { IfErr result (λ back. back.key ≡ key) }
        ensures value_back { IfErr result (λ back. back.value ≡ value) }
        ensures err { OnErr result (self.new ≡ self.old) }
    {
        if self.get(key.as_slice()).is_some() {
            match self.replace(key.as_slice(), value) {
                Ok(before) => Ok(Some(before)),
                Err(value) => Err(PutBack { key, value }),
            }
        } else {
            match self.put_new(key.as_slice(), value) {
                Ok(()) => Ok(None),
                Err(value) => Err(PutBack { key, value }),
            }
        }
    }

    /// Puts a key that is not there, with this value and no deadline. An `Err` changes nothing, and
    /// gives the value back. The key is looked up once.
    pub fn put_new(&mut self, key: &[u8], value: Value<N>) -> Result<(), Value<N>>
        requires absent { value_at self.old key.now ≡ None }
        ensures ok { OnOk result (self.new ≡ with_value self.old key.now value) }
        ensures back { IfErr result (λ back. back ≡ value) }
        ensures err { OnErr result (self.new ≡ self.old) }
    {
        let Ok(name) = Name::new(self.alloc, key) else {
            return Err(value);
        };
        match self.table.insert(name, Stored::new(value, None)) {
            Ok(before) => match before {
                None => Ok(()),
                Some(_) => unreachable!(),
            },
            Err(stored) => Err(stored.into_value()),
        }
    }

    /// Gives a key that is there this value and no deadline, and gives back the value that it had.
    /// An `Err` changes nothing, and gives the value back; it comes only where the key has a
    /// deadline and more than 23 bytes. The key is looked up once, and again before an `Err`.
    pub fn replace(&mut self, key: &[u8], value: Value<N>) -> Result<Value<N>, Value<N>>
        requires there { IsSome (value_at self.old key.now) }
        ensures before { IfOk result (λ before. Some before ≡ value_at self.old key.now) }
        ensures ok { OnOk result (self.new ≡ with_value self.old key.now value) }
        ensures back { IfErr result (λ back. back ≡ value) }
        ensures err { OnErr result (self.new ≡ self.old) }
    {
        let before = self.table.exchange(key, Stored::new(value, None));
        match self.dues.forget_key(self.alloc, key, before.deadline()) {
            Ok(()) => Ok(before.into_value()),
            Err(NoMemory) => Err(self.table.exchange(key, before).into_value()),
        }
    }

    /// Gives the key of this name, which is there, this value and no deadline, and gives back the
    /// value that it had. Takes no memory. The key is looked up once.
    pub fn replace_by(&mut self, name: Name, value: Value<N>) -> Value<N>
        requires there { IsSome (value_at self.old name) }
        ensures before { Some result ≡ value_at self.old name }
        ensures now { self.new ≡ with_value self.old name value }
    {
        let before = self
            .table
            .exchange(name.as_slice(), Stored::new(value, None));
        self.dues.forget(name, before.deadline());
        before.into_value()
    }

    /// Moves what a key has to another key, with its deadline, and gives the value that the other
    /// key had. The first key must be there, and the other must be another. An `Err` changes
    /// nothing.
    pub fn rename(&mut self, from: &[u8], to: Blob) -> Result<Option<Value<N>>, NoMemory>
        requires there { IsSome (value_at self.old from.now) }
        requires apart { from.now ≢ to }
        ensures before { IfOk result (λ before. before ≡ value_at self.old to) }
        ensures ok { OnOk result (self.new ≡ renamed self.old from.now to) }
        ensures err { OnErr result (self.new ≡ self.old) }
    {
        let moved = self.deadline(from);
        let there = self.deadline(to.as_slice());
        let name = Name::new(self.alloc, to.as_slice())?;
        let gained = unless_same(moved, there);
        self.dues.insert(self.alloc, to.as_slice(), gained)?;
        match self.table.rename(self.alloc, from, to.as_slice()) {
            Ok(Renamed { name: left, before }) => {
                self.dues.forget(name, unless_same(there, moved));
                self.dues.forget(left, moved);
                match before {
                    Some(before) => Ok(Some(before.into_value())),
                    None => Ok(None),
                }
            }
            Err(NoMemory) => {
                self.dues.forget(name, gained);
                Err(NoMemory)
            }
        }
    }

    /// The number of keys.
    pub fn len(&self) -> u64
        ensures count { result ≡ key_count self.now }
        ensures small { result < 2 ^ 63 }
    {
        self.table.len()
    }

    /// The keys in byte order, each with its value.
    pub fn iter(&self) -> Entries<'_, N>
        ensures listed { result ≡ listed self.now }
    {
        self.iter_from(Bound::Unbounded)
    }

    /// The keys in byte order, each with its value, from a name on, or after it where it is
    /// excluded. The name need not be there. Takes no memory, and O(log n) to begin.
    pub fn iter_from(&self, start: Bound<&Vec<u8>>) -> Entries<'_, N>
        ensures listed { result
            ≡ listed_from self.now (bound_map (λ name. name.now.items) start.entry) }
    {
        self.table.iter_from(start)
    }

    /// Takes out the least key in byte order, with its value, or gives `None` where there is no
    /// key.
    pub fn pop_first(&mut self) -> Option<(Name, Value<N>)>
        ensures first { result ≡ slice_get (listed self.old) 0 }
        ensures rest { MatchOption result (self.new ≡ self.old)
            (λ first. self.new ≡ without self.old first.0) }
    {
        match self.table.pop_first() {
            Some((key, stored)) => {
                let key = self.dues.remove(key, stored.deadline());
                Some((key, stored.into_value()))
            }
            None => None,
        }
    }

    /// The moment in milliseconds at which a key is due, or `None` where it has no deadline or is
    /// not there.
    pub fn deadline(&self, key: &[u8]) -> Option<u64>
        ensures deadline { result ≡ deadline_at self.now key.now }
    {
        match self.table.get(key) {
            Some(stored) => stored.deadline(),
            None => None,
        }
    }

    /// Gives a key that is there this deadline, which is not 0, or none. An `Err` changes nothing. The
    /// key is looked up once, and again before an `Err`.
    pub fn set_deadline(&mut self, key: &[u8], at: Option<u64>) -> Result<(), NoMemory>
        requires there { IsSome (value_at self.old key.now) }
        requires positive { at ≢ Some 0 }
        ensures ok { OnOk result (self.new ≡ with_deadline self.old key.now at) }
        ensures err { OnErr result (self.new ≡ self.old) }
    {
        let name = Name::new(self.alloc, key)?;
        let before = self.table.set_deadline(key, at);
        match self.dues.insert(self.alloc, key, unless_same(at, before)) {
            Ok(()) => {
                self.dues.forget(name, unless_same(before, at));
                Ok(())
            }
            Err(NoMemory) => {
                let _ = self.table.set_deadline(key, before);
                Err(NoMemory)
            }
        }
    }

    /// The key that is due first at this moment in milliseconds: of the keys whose deadline is at
    /// most `now` the one of the least deadline, and of several of that deadline the least in byte
    /// order; `None` where no key is due.
    pub fn next_due(&self, now: u64) -> Option<&[u8]>
        ensures first { option_map (λ key. key.now) result ≡ next_due self.now now }
    {
        match self.dues.first() {
            Some(due) if due.moment <= now => Some(due.key.as_slice()),
            _ => None,
        }
    }
}

/// What `next_due` gives, in words: where it gives a key, that key's deadline is at most now, no
/// other key has an earlier one, and of those of the same deadline none is before it in byte order;
/// where it gives none, no key is due.
pub fn next_due_in_words<N>(keys: &KeyStore<N>, now: u64)
    ensures in_words { IsNextDue keys.now now (next_due keys.now now) }
{}
