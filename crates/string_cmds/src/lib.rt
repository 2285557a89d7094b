//! The commands on a key that holds a string: GET, SET, SETNX, GETSET, APPEND, STRLEN, GETRANGE,
//! SETRANGE, INCR, DECR, INCRBY and DECRBY.
//!
//! `run` is exactly the row of its command in `specs/Rows.antt`, after the Redis command reference:
//! what becomes of the key, the reply, the change as a command that makes it again, and the event.
//! `run_other_kind` is the row where the key holds another kind of value. `StringCmd::ALL` and
//! `StringCmd::spec` are the list of the commands. The laws say of every row that its effect makes
//! the change again, that a refused command changes nothing, and that the limits of values and
//! requests are kept. Stands on `core_types` and `byte_text`.
//!
//! A command costs the bytes that it reads, writes or answers: APPEND its own bytes and not those
//! that stand, at amortized cost, GETRANGE its range, and INCR no memory for the number beside the
//! value.
#![tactic(auto)]

mod command;
mod counting;
mod laws;
mod reading;
mod refusing;
mod running;
mod setting;
mod words;
mod writing;

pub use command::StringCmd;
pub use laws::{
    commands_are_listed, effects_remake_changes, limits_are_kept, refusals_change_nothing,
};
pub use running::{run, run_other_kind};
