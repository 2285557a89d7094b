//! The map behind a hash.

ghost use Rattle.std.specs.Prelude.{◌≡◌, ◌+◌, ◌<◌, ◌≤◌, ◌^◌, ℕ, List, not, length, slice_get, Some, IfOk, OnOk, OnErr};
ghost use Rattle.std.specs.Option.{option_copied};
ghost use Rattle.indexmap.specs.IndexMap.{index_map_len, set_value_at, spare, values};
ghost use Rattle.core_types.specs.HashEntries.{fields_of};
ghost use Rattle.core_types.specs.inner.Removals.{is_among, set_names, those_but};
ghost use Rattle.core_types.specs.Fields.{field_value, with_field, with_fields, without_field, without_fields, AreDistinct};

use crate::{Blob, Field, NoMemory, Words};
use indexmap::{IndexMap, IndexSet};
use std::alloc::Global;
use std::collections::VecDeque;
use std::hash::RandomState;
use std::mem;

/// Names with values, in the order in which the names came.
pub(crate) type FieldMap = IndexMap<Vec<u8>, Blob, RandomState>;

// From this many names on, they are taken out in one pass.
const MANY: usize = 8;

// Names that stand where they came from.
type NameSet<'a> = IndexSet<&'a [u8], RandomState>;

// The number of fields.
pub(crate) fn count(fields: &FieldMap) -> usize
    ensures length { result ≡ length (fields_of fields.now.entries) }
    ensures bounded { length (fields_of fields.now.entries) < 2 ^ 63 }
{
    fields.len()
}

// No name stands twice.
pub(crate) fn has_distinct_names(fields: &FieldMap)
    ensures distinct { AreDistinct (fields_of fields.now.entries) }
{
    let _ = fields.len();
}

// The value of a name, where there is one.
pub(crate) fn value_of<'a>(fields: &'a FieldMap, name: &[u8]) -> Option<&'a Blob>
    ensures value { option_copied result ≡ field_value (fields_of fields.now.entries) name.now }
{
    fields.get(name)
}

// Puts a field, and gives back the value that it takes the place of.
pub(crate) fn put(
    alloc: Global,
    fields: &mut FieldMap,
    name: &[u8],
    value: Blob,
) -> Result<Option<Blob>, NoMemory>
    ensures before { IfOk result
        (λ before. before ≡ field_value (fields_of fields.old.entries) name.now) }
    ensures ok { OnOk result
        (fields_of fields.new.entries
        ≡ with_field (fields_of fields.old.entries) (record { name = name.now; value = value })) }
    ensures err { OnErr result (fields_of fields.new.entries ≡ fields_of fields.old.entries) }
{
    match fields.get_index_of(name) {
        Some(place) => Ok(Some(replace(fields, place, value))),
        None => {
            let name = Vec::from_slice(alloc, name)?;
            Ok(fields.insert(name, value)?)
        }
    }
}

// Takes out a name: its value, where there was one.
pub(crate) fn remove(fields: &mut FieldMap, name: &[u8]) -> Option<Blob>
    ensures before { result ≡ field_value (fields_of fields.old.entries) name.now }
    ensures left { fields_of fields.new.entries
        ≡ without_field (fields_of fields.old.entries) name.now }
    ensures fewer { index_map_len fields.new ≤ index_map_len fields.old }
{
    fields.shift_remove(name)
}

// A second map of the same fields, with names hashed by the same keys.
pub(crate) fn copied(alloc: Global, fields: &FieldMap) -> Result<FieldMap, NoMemory>
    ensures same { IfOk result (λ copies. fields_of copies.entries ≡ fields_of fields.now.entries) }
{
    let mut copies = IndexMap::with_hasher(alloc, *fields.hasher());
    copies.reserve(fields.len())?;
    for place in 0..fields.len() {
        let (name, value) = fields.get_index(place).unwrap();
        insert_copy(alloc, &mut copies, name, value)?;
    }
    Ok(copies)
}

// Puts a copy of a field.
fn insert_copy(
    alloc: Global,
    fields: &mut FieldMap,
    name: &[u8],
    value: &Blob,
) -> Result<(), NoMemory>
    ensures ok { OnOk result
        (fields_of fields.new.entries
        ≡ with_field (fields_of fields.old.entries)
        (record { name = name.now; value = value.now })) }
{
    fields.insert(Vec::from_slice(alloc, name)?, value.copy(alloc)?)?;
    Ok(())
}

// Takes out names, all of them or none: how many there were. The cost is linear in the fields and
// the names, whatever their numbers.
pub(crate) fn remove_all(
    alloc: Global,
    fields: &mut FieldMap,
    names: Words<'_>,
) -> Result<usize, NoMemory>
    ensures left { OnOk result (fields_of fields.new.entries
        ≡ without_fields (fields_of fields.old.entries) names.entry) }
    ensures count { IfOk result (λ n. n + index_map_len fields.new ≡ index_map_len fields.old) }
    ensures err { OnErr result (fields_of fields.new.entries ≡ fields_of fields.old.entries) }
{
    if names.len() < MANY {
        Ok(remove_each(fields, names))
    } else {
        remove_together(alloc, fields, names)
    }
}

// Takes out names, one after the other: how many there were. Each moves the fields behind it.
fn remove_each(fields: &mut FieldMap, names: Words<'_>) -> usize
    ensures left { fields_of fields.new.entries
        ≡ without_fields (fields_of fields.old.entries) names.entry }
    ensures count { result + index_map_len fields.new ≡ index_map_len fields.old }
{
    let before = fields.len();
    for name in names {
        let _ = remove(fields, name);
    }
    before - fields.len()
}

// Takes out names in one pass over the fields, all of them or none: how many there were.
fn remove_together(
    alloc: Global,
    fields: &mut FieldMap,
    names: Words<'_>,
) -> Result<usize, NoMemory>
    ensures left { OnOk result (fields_of fields.new.entries
        ≡ without_fields (fields_of fields.old.entries) names.entry) }
    ensures count { IfOk result (λ n. n + index_map_len fields.new ≡ index_map_len fields.old) }
    ensures err { OnErr result (fields_of fields.new.entries ≡ fields_of fields.old.entries) }
{
    let before = fields.len();
    let set = name_set(alloc, *fields.hasher(), names)?;
    keep_others(fields, &set);
    Ok(before - fields.len())
}

// Keeps the fields with other names than those of a set, in one pass.
fn keep_others(fields: &mut FieldMap, names: &NameSet<'_>)
    ensures left { fields_of fields.new.entries
        ≡ those_but (set_names names.now.keys) (fields_of fields.old.entries) }
    ensures fewer { index_map_len fields.new ≤ index_map_len fields.old }
{
    fields.retain(
        |name: &Vec<u8>, value: &mut Blob| -> bool
            ensures { (result ≡ not (is_among (set_names names.entry.now.keys) name.now.items))
                × (value.new ≡ value.old) }
        { !names.contains(&name.as_slice()) },
    );
}

// The names as a set, hashed by these keys.
fn name_set<'a>(alloc: Global, keys: RandomState, names: Words<'a>) -> Result<NameSet<'a>, NoMemory>
    ensures among { IfOk result (λ set. (name : List ℕ)
        → is_among (set_names set.keys) name ≡ is_among names.entry name) }
{
    let mut set = IndexSet::with_capacity_and_hasher(alloc, names.len(), keys)?;
    for name in names {
        set.insert(name)?;
    }
    Ok(set)
}

// Puts fields, one after the other, all of them or none.
pub(crate) fn put_all(fields: &mut FieldMap, more: Vec<Field>) -> Result<(), NoMemory>
    ensures ok { OnOk result
        (fields_of fields.new.entries ≡ with_fields (fields_of fields.old.entries) more.items) }
    ensures err { OnErr result (fields_of fields.new.entries ≡ fields_of fields.old.entries) }
{
    let mut more = VecDeque::from_vec(more);
    fields.reserve(more.len())?;
    while let Some(field) = more.pop_front() {
        put_reserved(fields, field);
    }
    Ok(())
}

// Puts a value in the place of another, which is given back.
fn replace(fields: &mut FieldMap, place: usize, value: Blob) -> Blob
    requires { place < index_map_len fields.old }
    ensures before { slice_get (values fields.old) place ≡ Some result }
    ensures written { fields.new.entries ≡ set_value_at fields.old.entries place value }
{
    let (_, there) = fields.pair_mut(place);
    mem::replace(there, value)
}

// Puts a field where there is room for it.
fn put_reserved(fields: &mut FieldMap, field: Field)
    requires { 0 < spare fields.old }
    ensures put { fields_of fields.new.entries ≡ with_field (fields_of fields.old.entries) field }
    ensures room { spare fields.old ≤ spare fields.new + 1 }
{
    let Field { name, value } = field;
    match fields.insert(name.into_vec(), value) {
        Ok(_) => {}
        Err(_) => unreachable!(),
    }
}
