//! The commands on a key that holds a list: LPUSH, RPUSH, LPOP, RPOP, LLEN, LINDEX, LRANGE, LSET,
//! LTRIM and LREM.
//!
//! `run` is exactly the row of its command in `specs/Rows.antt`, after the Redis command reference:
//! what becomes of the key, the reply, the change as a command that makes it again, and the events.
//! `run_other_kind` is the row where the key holds another kind of value. `ListCmd::ALL` and
//! `ListCmd::spec` are the list of the commands. The laws say of every row that its effect makes
//! the change again, that a refused command changes nothing, and that no empty list is kept. Stands
//! on `core_types` and `byte_text`.
//!
//! LPUSH, RPUSH, LPOP, RPOP and LSET cost their own words or the item that they answer, at
//! amortized cost, whatever the list holds. LINDEX costs its item, LRANGE its range, LTRIM what it
//! drops, and LREM one walk round the list.
#![tactic(auto)]

mod adding;
mod command;
mod laws;
mod reading;
mod refusing;
mod running;
mod taking;
mod words;

pub use command::ListCmd;
pub use laws::{
    commands_are_listed, effects_remake_changes, limits_are_kept, refusals_change_nothing,
};
pub use running::{run, run_other_kind};
