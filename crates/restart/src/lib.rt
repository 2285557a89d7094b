//! From a directory to the keys that it stands for.
//!
//! `open_log` reads the log of a directory whole, replays its units in order, and only then changes
//! anything: what an earlier run left unsynced is synced, a torn unit at the end is cut off, and
//! the names are synced. Where there is no log it begins one. A log that is refused is refused with
//! the offset and the reason of its first fault, and stays as it is. Whenever a crash comes, what
//! it leaves restarts as it would have before the call; and an open log is safe. `look` finds the
//! same and changes nothing. What replaying an effect means is the Replayer's; this crate stands on
//! `effect_log` for units and on `disk_model` for the directory. Opening is linear in the log, and
//! holds its bytes and one unit beside the keys.
#![tactic(auto)]

mod finding;
mod keeping;
mod laws;
mod opening;
mod replaying;

pub use laws::one_opening;
pub use opening::{OpenStop, Opened, look, open_log};
