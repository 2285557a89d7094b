//! A counter: the smallest type whose commands each work on one key, as docs/MODULES.md shows it.
#![tactic(auto)]

mod key_counter;

pub use key_counter::Counter;
