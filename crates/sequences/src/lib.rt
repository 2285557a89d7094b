//! Byte strings and lists that grow where memory may run out.
//!
//! A `Blob` is seen by contracts as its bytes, a `Sequence` as its items. Every call that takes
//! memory answers `NoMemory` alone, and an `Err` leaves its object as it was. Appending is
//! amortized O(1) an item; nothing else here costs more than the bytes it copies. A `Duplicate` is
//! what can be copied so. The words of a request, `Args`, are seen as the list of them, and stand in
//! two blocks, whatever their number; a `Draft` has them while they are read.
#![tactic(auto)]

mod blob;
mod draft;
mod duplicate;
mod no_memory;
mod packed;
mod sequence;
mod walk;
mod words;

pub use blob::Blob;
pub use draft::Draft;
pub use duplicate::Duplicate;
pub use no_memory::NoMemory;
pub use sequence::{Sequence, duplicate_items};
pub use walk::Words;
pub use words::{Args, Commands};
