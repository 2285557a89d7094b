//! The value of a hash: fields in order of insertion, found by name.

ghost use Rattle.std.specs.Prelude.{◌≡◌, ◌==◌, ◌+◌, ◌<◌, ◌^◌, [], length, slice_get, IfOk, OnOk, OnErr};
ghost use Rattle.std.specs.Option.{option_copied, option_map};
ghost use Rattle.core_types.specs.Fields.{field_value, with_field, with_fields, without_field, without_fields, AreDistinct};

use crate::field_map::{self, FieldMap};
use crate::{Blob, Duplicate, Fields, NoMemory, Words};
use indexmap::IndexMap;
use std::alloc::Global;
use std::hash::RandomState;
use std::marker::Model;

/// Fields in order of insertion, with distinct names. Finding a name and putting a field cost O(1)
/// expected, under any names: they are hashed with the keys that `new` was given, which clients
/// don't know.
#[derive(Debug, Drop)]
pub struct HashBody {
    fields: Box<FieldMap>,
}

impl Model for HashBody {
    ghost use Rattle.std.specs.Prelude.{List};
    ghost use Rattle.core_types.specs.declared.field.Field.{Field};

    ghost Value = { List Field };

    ghost use Rattle.core_types.specs.HashEntries.{fields_of};

    ghost view = { λ h. fields_of h.fields.value.entries };
}

impl HashBody {
    /// No fields. Names will be hashed with these keys. It takes memory for itself.
    pub fn new(alloc: Global, keys: RandomState) -> Result<HashBody, NoMemory>
        ensures empty { IfOk result (λ hash. hash ≡ []) }
    {
        Ok(HashBody {
            fields: Box::new(alloc, IndexMap::with_hasher(alloc, keys))?,
        })
    }

    /// The number of fields.
    pub fn len(&self) -> usize
        ensures length { result ≡ length self.now }
        ensures bounded { length self.now < 2 ^ 63 }
    {
        field_map::count(&self.fields)
    }

    /// No name stands twice.
    pub fn has_distinct_names(&self)
        ensures distinct { AreDistinct self.now }
    {
        field_map::has_distinct_names(&self.fields);
    }

    /// Whether there is no field.
    pub fn is_empty(&self) -> bool
        ensures empty { result ≡ (length self.now == 0) }
    {
        self.fields.is_empty()
    }

    /// The value of a name, where there is one.
    pub fn get(&self, name: &[u8]) -> Option<&Blob>
        ensures value { option_copied result ≡ field_value self.now name.now }
    {
        field_map::value_of(&self.fields, name)
    }

    /// The name of the field at a place, counted from 0, or `None` past the end.
    pub fn name_at(&self, place: usize) -> Option<&[u8]>
        ensures at { option_copied result
            ≡ option_map (λ field. field.name) (slice_get self.now place) }
    {
        let (name, _) = self.fields.get_index(place)?;
        Some(name.as_slice())
    }

    /// The value of the field at a place, counted from 0, or `None` past the end.
    pub fn value_at(&self, place: usize) -> Option<&Blob>
        ensures at { option_copied result
            ≡ option_map (λ field. field.value) (slice_get self.now place) }
    {
        let (_, value) = self.fields.get_index(place)?;
        Some(value)
    }

    /// Puts a field: a name that is there gets the value, in place of the one that is given back,
    /// and takes no memory; a new name goes last. On an `Err` the value is dropped.
    pub fn put(&mut self, alloc: Global, name: &[u8], value: Blob) -> Result<Option<Blob>, NoMemory>
        ensures before { IfOk result (λ before. before ≡ field_value self.old name.now) }
        ensures ok { OnOk result
            (self.new ≡ with_field self.old (record { name = name.now; value = value })) }
        ensures err { OnErr result (self.new ≡ self.old) }
    {
        field_map::put(alloc, &mut self.fields, name, value)
    }

    /// Takes out a name: its value, where there was one. The other fields keep their order. Takes
    /// no memory, and moves the fields behind it.
    pub fn remove(&mut self, name: &[u8]) -> Option<Blob>
        ensures before { result ≡ field_value self.old name.now }
        ensures left { self.new ≡ without_field self.old name.now }
    {
        field_map::remove(&mut self.fields, name)
    }

    /// Takes out names: how many there were. The other fields keep their order. All of them are
    /// taken out or none. The cost is linear in the fields and the names together, and a few names
    /// take no memory.
    pub fn remove_all(&mut self, alloc: Global, names: Words<'_>) -> Result<usize, NoMemory>
        ensures left { OnOk result (self.new ≡ without_fields self.old names.entry) }
        ensures count { IfOk result (λ n. n + length self.new ≡ length self.old) }
        ensures err { OnErr result (self.new ≡ self.old) }
    {
        field_map::remove_all(alloc, &mut self.fields, names)
    }

    /// Puts fields, one after the other. All of them are put or none. Each takes O(1) expected.
    pub fn put_all(&mut self, fields: Fields) -> Result<(), NoMemory>
        ensures ok { OnOk result (self.new ≡ with_fields self.old fields) }
        ensures err { OnErr result (self.new ≡ self.old) }
    {
        field_map::put_all(&mut self.fields, fields.into_vec())
    }

    /// A second hash of the same fields, with names hashed by the same keys.
    pub fn copy(&self, alloc: Global) -> Result<HashBody, NoMemory>
        ensures same { IfOk result (λ hash. hash ≡ self.now) }
    {
        Ok(HashBody {
            fields: Box::new(alloc, field_map::copied(alloc, &self.fields)?)?,
        })
    }
}

impl Duplicate for HashBody {
    fn duplicate(&self, alloc: Global) -> Result<HashBody, NoMemory> {
        self.copy(alloc)
    }
}
