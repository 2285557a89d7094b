//! The value of a list: byte strings in order, quick at both ends.

ghost use Rattle.std.specs.Prelude.{◌≡◌, ◌==◌, ◌+◌, ◌<◌, ◌≤◌, ◌^◌, ◌++◌, List, ℕ, [], ◌∷◌, length, ◌&&◌, slice_get, slice_set, slice_range, slice_index_or, reverse, if◌then◌else◌, IfOk, OnOk, OnErr};
ghost use Rattle.std.specs.Option.{option_copied, option_to_list};
ghost use Rattle.std.specs.VecDeque.{deque_len};
ghost use Rattle.std.specs.Str.{bytes_eq};
ghost use Rattle.core_types.specs.Equal.{without_first, without_last, turned_list};

use crate::{Blob, Duplicate, NoMemory, Sequence};
use std::alloc::Global;
use std::collections::VecDeque;
use std::marker::Model;
use std::mem;

/// Byte strings in order, behind one pointer. Adding and taking at either end and looking at a
/// place cost O(1).
#[derive(Debug, Drop)]
pub struct ListBody {
    items: Box<VecDeque<Blob>>,
}

impl Model for ListBody {
    ghost Value = { List (List ℕ) };

    ghost view = { λ l. l.items.value.items };
}

impl ListBody {
    /// The empty list. It takes memory for itself.
    pub fn new(alloc: Global) -> Result<ListBody, NoMemory>
        ensures empty { IfOk result (λ list. list ≡ []) }
    {
        Ok(ListBody {
            items: Box::new(alloc, VecDeque::new(alloc))?,
        })
    }

    /// A second list of the same items.
    pub fn copy(&self, alloc: Global) -> Result<ListBody, NoMemory>
        ensures same { IfOk result (λ list. list ≡ self.now) }
    {
        Ok(ListBody {
            items: Box::new(alloc, copied(alloc, &self.items)?)?,
        })
    }

    /// The number of items.
    pub fn len(&self) -> usize
        ensures length { result ≡ length self.now }
        ensures bounded { length self.now < 2 ^ 63 }
    {
        self.items.len()
    }

    /// Whether there is no item.
    pub fn is_empty(&self) -> bool
        ensures empty { result ≡ (length self.now == 0) }
    {
        self.items.is_empty()
    }

    /// The item at a place, counted from 0, or `None` past the end.
    pub fn get(&self, place: usize) -> Option<&Blob>
        ensures at { option_copied result ≡ slice_get self.now place }
    {
        self.items.get(place)
    }

    /// Adds one item at the front. On an `Err` the item is dropped.
    pub fn push_front(&mut self, item: Blob) -> Result<(), NoMemory>
        ensures ok { OnOk result (self.new ≡ item ∷ self.old) }
        ensures err { OnErr result (self.new ≡ self.old) }
    {
        self.items.push_front(item)?;
        Ok(())
    }

    /// Adds one item at the end. On an `Err` the item is dropped.
    pub fn push_back(&mut self, item: Blob) -> Result<(), NoMemory>
        ensures ok { OnOk result (self.new ≡ self.old ++ item ∷ []) }
        ensures err { OnErr result (self.new ≡ self.old) }
    {
        self.items.push_back(item)?;
        Ok(())
    }

    /// Takes out the first item, if there is one.
    pub fn pop_front(&mut self) -> Option<Blob>
        ensures items { self.old ≡ option_to_list result ++ self.new }
        ensures none { result ≡ None → self.old ≡ [] }
    {
        self.items.pop_front()
    }

    /// Takes out the last item, if there is one.
    pub fn pop_back(&mut self) -> Option<Blob>
        ensures items { self.old ≡ self.new ++ option_to_list result }
        ensures none { result ≡ None → self.old ≡ [] }
    {
        self.items.pop_back()
    }

    /// Adds items at the front, one after the other, so that the last of them comes first. All of
    /// them are added or none.
    pub fn extend_front(&mut self, items: Sequence<Blob>) -> Result<(), NoMemory>
        ensures ok { OnOk result (self.new ≡ reverse items ++ self.old) }
        ensures err { OnErr result (self.new ≡ self.old) }
    {
        extend_front(&mut self.items, items.into_vec())
    }

    /// Adds items at the end, in order. All of them are added or none.
    pub fn extend_back(&mut self, items: Sequence<Blob>) -> Result<(), NoMemory>
        ensures ok { OnOk result (self.new ≡ self.old ++ items) }
        ensures err { OnErr result (self.new ≡ self.old) }
    {
        let mut items = VecDeque::from_vec(items.into_vec());
        self.items.append(&mut items)?;
        Ok(())
    }

    /// Puts an item in the place of another, which is given back. Takes no memory.
    pub fn replace(&mut self, place: usize, item: Blob) -> Blob
        requires { place < length self.old }
        ensures before { slice_get self.old place ≡ Some result }
        ensures written { self.new ≡ slice_set self.old place item }
    {
        replace(&mut self.items, place, item)
    }

    /// Keeps the items from `start` on and before `end`, and drops the others. Takes no memory.
    pub fn keep_range(&mut self, start: usize, end: usize)
        requires order { start ≤ end }
        requires within { end ≤ length self.old }
        ensures kept { self.new ≡ slice_range self.old start end }
    {
        keep_range(&mut self.items, start, end);
    }

    /// Takes out the first items that are equal to this one, `most` of them or as many as there
    /// are: how many. Takes no memory.
    pub fn remove_first(&mut self, most: usize, item: &[u8]) -> usize
        ensures left { self.new ≡ without_first most item.now self.old }
        ensures count { result + length self.new ≡ length self.old }
    {
        remove_first(&mut self.items, most, item)
    }

    /// Takes out the last items that are equal to this one, `most` of them or as many as there are:
    /// how many. Takes no memory.
    pub fn remove_last(&mut self, most: usize, item: &[u8]) -> usize
        ensures left { self.new ≡ without_last most item.now self.old }
        ensures count { result + length self.new ≡ length self.old }
    {
        remove_last(&mut self.items, most, item)
    }
}

impl Duplicate for ListBody {
    fn duplicate(&self, alloc: Global) -> Result<ListBody, NoMemory> {
        self.copy(alloc)
    }
}

fn copied(alloc: Global, items: &VecDeque<Blob>) -> Result<VecDeque<Blob>, NoMemory>
    ensures same { IfOk result (λ copies. copies.items ≡ items.now.items) }
{
    let mut copies = VecDeque::with_capacity(alloc, items.len())?;
    for place in 0..items.len() {
        copies.push_back(items[place].copy(alloc)?)?;
    }
    Ok(copies)
}

fn extend_front(items: &mut VecDeque<Blob>, more: Vec<Blob>) -> Result<(), NoMemory>
    ensures ok { OnOk result (items.new.items ≡ reverse more.items ++ items.old.items) }
    ensures err { OnErr result (items.new.items ≡ items.old.items) }
{
    let mut turned = VecDeque::from_vec(more);
    items.reserve(turned.len())?;
    while let Some(item) = turned.pop_front() {
        items.push_front_reserved(item);
    }
    Ok(())
}

fn replace(items: &mut VecDeque<Blob>, place: usize, item: Blob) -> Blob
    requires { place < deque_len items.old }
    ensures before { slice_get items.old.items place ≡ Some result }
    ensures written { items.new.items ≡ slice_set items.old.items place item }
{
    let there = &mut items[place];
    mem::replace(there, item)
}

fn keep_range(items: &mut VecDeque<Blob>, start: usize, end: usize)
    requires order { start ≤ end }
    requires within { end ≤ deque_len items.old }
    ensures kept { items.new.items ≡ slice_range items.old.items start end }
{
    items.truncate(end);
    let mut more = start;
    while more > 0 {
        let _ = items.pop_front();
        more -= 1;
    }
}

// Goes round the list once: behind the `more` items that are still to be looked at stand those that
// stay.
fn remove_first(items: &mut VecDeque<Blob>, most: usize, item: &[u8]) -> usize
    ensures left { items.new.items ≡ without_first most item.now items.old.items }
    ensures count { result + deque_len items.new ≡ deque_len items.old }
{
    let mut removed = 0;
    let mut more = items.len();
    while more > 0 {
        if turn_first(items, removed < most, item) {
            removed += 1;
        }
        more -= 1;
    }
    removed
}

// Takes out the first item where it may go and is equal to this one: whether it was. Else it goes
// last.
fn turn_first(items: &mut VecDeque<Blob>, may_go: bool, item: &[u8]) -> bool
    requires { 0 < deque_len items.old }
    ensures gone { result ≡ (may_go && bytes_eq (slice_index_or items.old.items 0 []) item.now) }
    ensures turned { items.new.items ≡ turned_list result items.old.items }
    ensures count { (if result then 1 else 0) + deque_len items.new ≡ deque_len items.old }
{
    let first = items.pop_front().unwrap();
    let goes = may_go && first.as_slice() == item;
    if !goes {
        items.push_back_reserved(first);
    }
    goes
}

// The same from the end.
fn remove_last(items: &mut VecDeque<Blob>, most: usize, item: &[u8]) -> usize
    ensures left { items.new.items ≡ without_last most item.now items.old.items }
    ensures count { result + deque_len items.new ≡ deque_len items.old }
{
    let mut removed = 0;
    let mut more = items.len();
    while more > 0 {
        if turn_last(items, removed < most, item) {
            removed += 1;
        }
        more -= 1;
    }
    removed
}

// Takes out the last item where it may go and is equal to this one: whether it was. Else it goes
// first.
fn turn_last(items: &mut VecDeque<Blob>, may_go: bool, item: &[u8]) -> bool
    requires { 0 < deque_len items.old }
    ensures gone { result
        ≡ (may_go && bytes_eq (slice_index_or (reverse items.old.items) 0 []) item.now) }
    ensures turned { reverse items.new.items ≡ turned_list result (reverse items.old.items) }
    ensures count { (if result then 1 else 0) + deque_len items.new ≡ deque_len items.old }
{
    let last = items.pop_back().unwrap();
    let goes = may_go && last.as_slice() == item;
    if !goes {
        items.push_front_reserved(last);
    }
    goes
}
