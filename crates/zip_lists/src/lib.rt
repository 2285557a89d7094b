//! Ziplists, as dumps of RDB version 9 hold them: `items` gives the items, or the first bad place.
//!
//! A ziplist is one byte string: a header, entries, and `FF`. Each entry tells the length of the
//! one before it, and its item is a string or an integer, which stands for its decimal. `items`
//! takes exactly the ziplists and gives exactly their items; any other bytes have a first bad
//! place, and it answers that. Stands on `sequences` and `byte_text`.
//!
//! It goes over the bytes once and copies each string once. Memory is taken for a string only once
//! its bytes are known to be there, and nothing is reserved for what a header says.
#![tactic(auto)]

mod content;
mod header;
mod laws;
mod number;
mod previous;
mod stop;
mod walk;
mod ziplist;

pub use laws::one_outcome;
pub use stop::ZipStop;
pub use ziplist::items;
