//! A list that grows at its end, seen as the list of its items.

ghost use Rattle.std.specs.Prelude.{◌≡◌, ◌==◌, ◌++◌, List, [], ◌∷◌, length, slice_get, IfOk, OnOk, OnErr};
ghost use Rattle.std.specs.Option.{option_copied, option_to_list};

use crate::{Duplicate, NoMemory};
use std::alloc::Global;
use std::marker::Model;

/// Items in the order in which they were added.
#[derive(Debug, Drop)]
pub struct Sequence<T> {
    items: Vec<T>,
}

impl<T> Model for Sequence<T> {
    ghost Value = { List T };

    ghost view = { λ s. s.items.items };
}

impl<T> Sequence<T> {
    /// No items. Takes no memory.
    pub fn new(alloc: Global) -> Sequence<T>
        ensures empty { result ≡ [] }
    {
        Sequence {
            items: Vec::new(alloc),
        }
    }

    /// The items of the vector, without a copy.
    pub fn from_vec(items: Vec<T>) -> Sequence<T>
        ensures items { result ≡ items.items }
    {
        Sequence { items }
    }

    /// The items as a vector, without a copy.
    pub fn into_vec(self) -> Vec<T>
        ensures items { result.items ≡ self }
    {
        let Sequence { items } = self;
        items
    }

    /// The number of items.
    pub fn len(&self) -> usize
        ensures length { result ≡ length self.now }
    {
        self.items.len()
    }

    /// Whether there is no item.
    pub fn is_empty(&self) -> bool
        ensures empty { result ≡ (length self.now == 0) }
    {
        self.items.is_empty()
    }

    /// The item at a place, counted from 0, or `None` past the end.
    pub fn get(&self, place: usize) -> Option<&T>
        ensures at { option_copied result ≡ slice_get self.now place }
    {
        self.items.get(place)
    }

    /// The items.
    pub fn as_slice(&self) -> &[T]
        ensures items { result.now ≡ self.now }
    {
        &self.items
    }

    /// Takes out the last item, if there is one. Takes no memory.
    pub fn pop(&mut self) -> Option<T>
        ensures items { self.old ≡ self.new ++ option_to_list result }
        ensures none { result ≡ None → self.old ≡ [] }
    {
        self.items.pop()
    }

    /// Moves all items of another list to the end of this one.
    pub fn append(&mut self, more: &mut Sequence<T>) -> Result<(), NoMemory>
        ensures ok { OnOk result (self.new ≡ self.old ++ more.old) }
        ensures moved { OnOk result (more.new ≡ []) }
        ensures err { OnErr result (self.new ≡ self.old) }
        ensures err_more { OnErr result (more.new ≡ more.old) }
    {
        self.items.append(&mut more.items)?;
        Ok(())
    }
}

impl<T: Drop> Sequence<T> {
    /// Adds one item at the end. On an `Err` the item is dropped.
    pub fn push(&mut self, item: T) -> Result<(), NoMemory>
        ensures ok { OnOk result (self.new ≡ self.old ++ item ∷ []) }
        ensures err { OnErr result (self.new ≡ self.old) }
    {
        self.items.push(item)?;
        Ok(())
    }
}

impl<T: Duplicate + Drop> Sequence<T> {
    /// A second list of the same items.
    pub fn copy(&self, alloc: Global) -> Result<Sequence<T>, NoMemory>
        ensures same { IfOk result (λ sequence. sequence ≡ self.now) }
    {
        Ok(Sequence {
            items: duplicate_items(alloc, &self.items)?,
        })
    }
}

impl<T: Duplicate + Drop> Duplicate for Sequence<T> {
    fn duplicate(&self, alloc: Global) -> Result<Sequence<T>, NoMemory> {
        self.copy(alloc)
    }
}

/// A second list of the items of a slice, as a vector.
pub fn duplicate_items<T: Duplicate + Drop>(alloc: Global, items: &[T]) -> Result<Vec<T>, NoMemory>
    ensures same { IfOk result (λ copies. copies.items ≡ items.now) }
{
    let mut copies = Vec::new(alloc);
    for item in items {
        copies.push(item.duplicate(alloc)?)?;
    }
    Ok(copies)
}
