//! A key, opened for reading or for writing.
//!
//! `Handle::open_key` opens a key of a context. Each call on the handle means the context's call on
//! that key; those that change it are refused as `ReadOnly` exactly where the key is open for
//! reading, before anything else is looked at. Stands on module_laws.
//!
//! A call costs what the context's call costs, and takes no memory of its own.
#![tactic(auto)]

mod fault;
mod handle;

pub use fault::HandleFault;
pub use handle::{Handle, Mode};
