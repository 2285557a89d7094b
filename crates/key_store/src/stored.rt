//! What the store has for a key.

ghost use Rattle.std.specs.Prelude.{◌≡◌, ◌≢◌, None, Some, IfOk, IfErr, OnOk, OnErr};
ghost use Rattle.std.specs.Borrow.{sem};
ghost use Rattle.key_store.specs.inner.Held.{held};
ghost use Rattle.key_store.specs.inner.LendingValue.{LendsValue};

use core_types::{Blob, Value};
use std::alloc::Global;
use std::marker::Model;
use std::mem::replace;

/// A value, and the moment in milliseconds at which it is due, where it has one.
#[derive(Drop)]
pub(crate) struct Stored<N> {
    value: Value<N>,
    // The moment, or 0 where there is none.
    due: u64,
}

impl<N> Model for Stored<N> {
    ghost use Rattle.core_types.specs.Keys.{Entry};
    ghost use Rattle.key_store.specs.inner.Held.{deadline_of};

    ghost Value = { Entry N };

    ghost view = { λ s. record { value = s.value; deadline = deadline_of s.due } };
}

impl<N> Stored<N> {
    pub(crate) fn new(value: Value<N>, deadline: Option<u64>) -> Stored<N>
        requires positive { deadline ≢ Some 0 }
        ensures { result ≡ record { value = value; deadline = deadline } }
    {
        Stored {
            value,
            due: deadline.unwrap_or(0),
        }
    }

    pub(crate) fn value(&self) -> &Value<N>
        ensures { result.now ≡ self.now.value }
    {
        &self.value
    }

    pub(crate) fn deadline(&self) -> Option<u64>
        ensures { result ≡ self.now.deadline }
    {
        if self.due == 0 { None } else { Some(self.due) }
    }

    pub(crate) fn into_value(self) -> Value<N>
        ensures { result ≡ self.value }
    {
        let Stored { value, due: _ } = self;
        value
    }

    // Gives it this deadline, or none, and gives back the one that it had.
    pub(crate) fn set_deadline(&mut self, deadline: Option<u64>) -> Option<u64>
        requires positive { deadline ≢ Some 0 }
        ensures before { result ≡ self.old.deadline }
        ensures positive { result ≢ Some 0 }
        ensures after { self.new ≡ record self.old { deadline = deadline } }
    {
        let before = self.deadline();
        self.due = deadline.unwrap_or(0);
        before
    }

    // Puts another entry in the place of this, and gives back this.
    pub(crate) fn exchange(&mut self, stored: Stored<N>) -> Stored<N>
        ensures before { result ≡ self.old }
        ensures after { self.new ≡ stored }
    {
        replace(self, stored)
    }

    // The value, to be changed.
    pub(crate) fn value_mut(&mut self) -> &mut Value<N>
        ensures* writes_back { sem 𝓛 (LendsValue N.row self.entry result) }
        ensures value { result.now ≡ self.old.value }
    {
        &mut self.value
    }

    // What holds a place: an empty string. Takes no memory.
    pub(crate) fn held(alloc: Global) -> Stored<N>
        ensures { result ≡ held }
    {
        Stored::new(Value::Str(Blob::new(alloc)), None)
    }

    // Drops what held a place.
    pub(crate) fn discard(self)
        requires { self ≡ held }
    {
        match self.into_value() {
            Value::Str(_) => {}
            _ => unreachable!(),
        }
    }
}
