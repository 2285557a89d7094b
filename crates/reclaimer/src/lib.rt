//! Values that left the keys and wait to be freed.
//!
//! `Reclaimer<V>` is a queue: values go in at its end and come out at its front, so that a large
//! value can be taken from the keys at once and freed later, a few at a time. It is seen as the
//! list of the values that wait, the oldest first. No call drops a value, so `V` may be a type
//! whose values must be spent; a queue is ended by `close` when nothing waits. It stands on std
//! alone. Every call is O(1), `push` on average over many. Only `push` takes memory, and it gives
//! the value back where there is none.
#![tactic(auto)]

mod queue;

pub use queue::Reclaimer;
