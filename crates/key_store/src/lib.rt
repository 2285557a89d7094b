//! The keys of a host, with their values and their deadlines.
//!
//! `KeyStore<N>` is the finite map from byte strings to values with deadlines, where `N` stands for
//! the values of modules; each call is one change of that map or one look at it. No call drops a
//! value, so `N` may be a type whose values must be spent. It stands on `core_types` alone. Every
//! call is O(log n) in the number of keys: an ordered index of the deadlines is kept beside them,
//! so that the key that is due first is the first of the index. A key of at most 23 bytes lies in
//! the tree itself, and longer ones stand in a tree of their own, so that no look-up takes memory.
//! A deadline is a number in its key's entry; the index has one more copy of a key that has one.
//! Memory is taken by `put`, `put_new`, `rename` and `set_deadline`, and by `replace` where a long
//! key has a deadline.
#![tactic(auto)]

mod ahead;
mod due;
mod entries;
mod long_table;
mod name;
mod put_back;
mod short_name;
mod short_table;
mod start;
mod store;
mod stored;
mod table;

pub use entries::Entries;
pub use name::Name;
pub use put_back::PutBack;
pub use store::{KeyStore, next_due_in_words};
