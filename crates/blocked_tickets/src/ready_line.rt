//! The tickets that were unblocked, in order of their unblocks.

ghost use Rattle.std.specs.Prelude.{◌≡◌, ◌==◌, ◌+◌, ◌<◌, ◌≤◌, ◌++◌, not, [], ◌∷◌, length, filter, slice_get, nat_eq, IfOk, OnOk};
ghost use Rattle.std.specs.List.{IsDistinct};
ghost use Rattle.std.specs.VecDeque.{deque_capacity};

use sequences::NoMemory;
use std::alloc::Global;
use std::collections::VecDeque;
use std::marker::Model;

/// The numbers of the ready tickets, with room for more. Adding at the end and taking the first
/// cost O(1); only `reserve` takes memory, and a copy.
#[derive(Debug, Drop)]
pub(crate) struct ReadyLine {
    numbers: VecDeque<u64>,
}

impl Model for ReadyLine {
    ghost use Rattle.std.specs.VecDeque.{deque_capacity};
    ghost use Rattle.blocked_tickets.specs.inner.Line.{Line};

    ghost Value = { Line };

    ghost view = { λ r. record { numbers = r.numbers.items; room = deque_capacity r.numbers } };
}

impl ReadyLine {
    pub(crate) fn new(alloc: Global) -> ReadyLine
        ensures empty { result.numbers ≡ [] }
    {
        ReadyLine {
            numbers: VecDeque::new(alloc),
        }
    }

    // Makes room for this number in all.
    pub(crate) fn reserve(&mut self, total: usize) -> Result<(), NoMemory>
        ensures same { self.new.numbers ≡ self.old.numbers }
        ensures ok { OnOk result (total ≤ self.new.room) }
        ensures room { self.old.room ≤ self.new.room }
    {
        self.numbers
            .reserve(total.saturating_sub(self.numbers.len()))?;
        Ok(())
    }

    // The first, or `None` where there is none.
    pub(crate) fn first(&self) -> Option<u64>
        ensures first { result ≡ slice_get self.now.numbers 0 }
    {
        self.numbers.front().copied()
    }

    // Adds a number at the end.
    pub(crate) fn push(&mut self, number: u64)
        requires { length self.old.numbers < self.old.room }
        ensures last { self.new.numbers ≡ self.old.numbers ++ number ∷ [] }
        ensures room { self.new.room ≡ self.old.room }
    {
        self.numbers.push_back_reserved(number);
    }

    // Takes a number out. That of the first is O(1).
    pub(crate) fn remove(&mut self, number: u64)
        requires { IsDistinct nat_eq self.old.numbers }
        ensures left { self.new.numbers ≡ filter (λ n. not (n == number)) self.old.numbers }
        ensures room { self.new.room ≡ self.old.room }
    {
        leave(&mut self.numbers, number);
    }

    // A copy of the numbers.
    pub(crate) fn copy(&self, alloc: Global) -> Result<Vec<u64>, NoMemory>
        ensures same { IfOk result (λ copies. copies.items ≡ self.now.numbers) }
    {
        copied(alloc, &self.numbers)
    }
}

fn copied(alloc: Global, numbers: &VecDeque<u64>) -> Result<Vec<u64>, NoMemory>
    ensures same { IfOk result (λ copies. copies.items ≡ numbers.now.items) }
{
    let mut copies = Vec::with_capacity(alloc, numbers.len())?;
    for number in numbers {
        copies.push(*number)?;
    }
    Ok(copies)
}

// Takes a number out of a line in which it stands once at most.
fn leave(numbers: &mut VecDeque<u64>, number: u64)
    requires { IsDistinct nat_eq numbers.old.items }
    ensures left { numbers.new.items ≡ filter (λ n. not (n == number)) numbers.old.items }
    ensures room { deque_capacity numbers.new ≡ deque_capacity numbers.old }
{
    match numbers.front() {
        Some(first) if *first == number => {
            let _ = numbers.pop_front();
        }
        _ => numbers.retain(|n| *n != number),
    }
}
