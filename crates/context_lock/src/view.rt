//! What a seat of the lock knows. No value of these types is made: they stand in contracts and
//! proofs alone.

ghost use base.Fml.{ftrue};
ghost use Rattle.core_types.specs.Shown.{Shown};
ghost use Rattle.core_types.specs.Codes.{shown_code};

use core_types::Event;
use std::collections::LinkedList;
use std::marker::Model;

/// The events that a state keeps, and the number of the first of them. Those before it were cut
/// off.
pub struct History {
    pub first: u64,
    pub events: LinkedList<Event>,
}

/// An event, and its number in the history.
pub struct Pair {
    pub number: u64,
    pub event: Event,
}

/// What a state showed at a moment.
pub struct Sight {
    pub ghost shown: { Shown } by { shown_code },
}

impl Model for Sight {
    ghost also_owns = { λ _. ftrue };
}

/// From an `enter` to its `leave`: what the state showed at each.
pub struct Stay {
    pub came: Sight,
    pub went: Sight,
}

/// What a seat knows.
pub struct View {
    pub seen: u64,
    pub parts: u64,
    pub mine: LinkedList<Pair>,
    pub stays: LinkedList<Stay>,
    // 1 where the seat has the turn, and else 0.
    pub turn: u64,
    // While it has the turn: the history at `enter`, or as it was given back, and what the state
    // showed at `enter`.
    pub history: History,
    pub came: Sight,
}
