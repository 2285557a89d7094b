//! Values of modules in boxes, each with a number of its own.
//!
//! A `Vault` issues boxes. Each `Boxed` holds a serial and a value, and must be spent: it is given
//! back to a vault, which hands out its value. Serials rise from 0, and none is issued twice. The
//! vault counts the boxes that it has issued and not got back. Stands on no other crate.
//!
//! Every call is O(1) and takes no memory.
#![tactic(auto)]

mod boxed;
mod laws;
mod vault;

pub use boxed::Boxed;
pub use laws::no_serial_twice;
pub use vault::Vault;
