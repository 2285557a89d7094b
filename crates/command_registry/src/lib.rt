//! The commands that are known, by their names.
//!
//! `Registry` is a finite map from names in upper case to what is known of a command and whose it
//! is. At most 1,024 commands are in it, and a name is in it once, without regard to the case of
//! ASCII letters. It stands on `core_types` for what a command is and on `byte_text` for what a
//! name is. It is a vector in the order of the names: a look-up is O(log n) in the commands and
//! takes no memory, and adding one moves those behind it.
#![tactic(auto)]

mod owner;
mod register_fault;
mod registry;
mod search;

pub use owner::Owner;
pub use register_fault::RegisterFault;
pub use registry::Registry;
