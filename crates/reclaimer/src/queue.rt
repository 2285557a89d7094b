//! The queue.

ghost use Rattle.std.specs.Prelude.{◌≡◌, ◌++◌, [], ◌∷◌, length, drop, slice_get, IfErr, OnOk};
ghost use Rattle.std.specs.Prelude.{OnErr};

use std::alloc::Global;
use std::collections::VecDeque;
use std::marker::Model;

/// The values that wait to be freed, the oldest first.
#[derive(Drop)]
pub struct Reclaimer<V> {
    values: VecDeque<V>,
}

impl<V> Model for Reclaimer<V> {
    ghost use Rattle.std.specs.Prelude.{List};

    ghost Value = { List V };

    ghost view = { λ r. r.values.items };
}

impl<V> Reclaimer<V> {
    /// A queue in which nothing waits. Takes no memory.
    pub fn new(alloc: Global) -> Reclaimer<V>
        ensures empty { result ≡ [] }
    {
        Reclaimer {
            values: VecDeque::new(alloc),
        }
    }

    /// Adds a value behind all that wait. For want of memory it comes back, and nothing changed.
    pub fn push(&mut self, value: V) -> Result<(), V>
        ensures ok { OnOk result (self.new ≡ self.old ++ value ∷ []) }
        ensures back { IfErr result (λ back. back ≡ value) }
        ensures err { OnErr result (self.new ≡ self.old) }
    {
        match self.values.push_back(value) {
            Ok(()) => Ok(()),
            Err(refused) => Err(refused.value),
        }
    }

    /// Takes out the value that waits longest, or gives `None` where nothing waits.
    pub fn pop(&mut self) -> Option<V>
        ensures oldest { result ≡ slice_get self.old 0 }
        ensures rest { self.new ≡ drop 1 self.old }
    {
        self.values.pop_front()
    }

    /// How many values wait.
    pub fn len(&self) -> u64
        ensures number { result ≡ length self.now }
    {
        self.values.len() as u64
    }

    /// Ends a queue in which nothing waits, also where its values are of a type that is not
    /// dropped.
    pub fn close(self)
        requires empty { length self ≡ 0 }
    {
        let Reclaimer { values } = self;
        values.destroy_empty();
    }
}
