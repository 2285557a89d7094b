//! A host whose history outlives a crash: the machine of `host_core` over the log of a directory.
//!
//! `DurableHost` keeps the state that it began from and every event since, in order. A step
//! computes its event in the core and appends the unit of its changes to the log; a Flush syncs the
//! log once, and then lets clients take what they were told. The events up to the last Flush are
//! safe: whenever a crash comes, inside a call or between two, the directory restarts to the keys
//! after some of the events, in order from the first, and at least the safe ones; and every byte
//! that `take_out` hands out was told by a safe event. `step` says which events are kept after each
//! fault; the first fault stops the host, and its cause is kept.
//!
//! It stands on `host_core` for what an event means, on `restart` for opening and for what a
//! directory stands for, on `effect_log` for the units, and on `disk_model` for what a crash
//! leaves. A step costs its event, one append where keys changed and one sync where it is a Flush;
//! an event is moved into the history. Opening moves the keys into the core and makes one picture
//! of them.
#![tactic(auto)]

mod computing;
mod fault;
mod host;
mod laws;
mod loader;
mod loading;
mod parts;

pub use fault::{HostFault, StartBack};
pub use host::DurableHost;
pub use laws::images_go_on;
pub use loader::Loader;
