//! Tickets that wait on keys.
//!
//! `Waiters` is the finite map of the tickets that wait, each with the key that it waits on; each
//! call is one step of it or one look at it. Of the tickets on one key the first, by number, is the
//! one that began to wait first, since each new one is above all that wait; `first` gives the first
//! above a number, so that those on a key can be asked in their order while some of them leave. It
//! stands on `sequences` alone. Every call is O(log n) in the number of tickets: they are found by
//! their numbers, and those of one key stand in a tree of their own. Only `wait` takes memory; a
//! key is stored with each of its tickets, and once more.
#![tactic(auto)]

mod line;
mod lines;
mod table;
mod waiters;

pub use waiters::Waiters;
