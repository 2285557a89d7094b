//! The parts of a module's saved value, put and taken in order.
//!
//! `TaggedOut` gathers numbers and byte strings as a module saves a value, and `TaggedIn` takes
//! them again as it loads one. Contracts see the one as the list of what was put, and the other as
//! what was taken and what is left. What was put is taken again by the calls of the same kinds in
//! the same order, whatever follows it. Stands on core_types, and on thiserror for the texts of its
//! faults.
//!
//! Putting copies the bytes once. Taking costs O(1) a part, copies nothing and takes no memory.
#![tactic(auto)]

mod laws;
mod tagged_in;
mod tagged_out;
mod take_fault;

pub use laws::taken_as_put;
pub use tagged_in::TaggedIn;
pub use tagged_out::TaggedOut;
pub use take_fault::{TaggedKind, TakeFault};
