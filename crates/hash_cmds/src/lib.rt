//! The commands on a key that holds a hash: HSET, HMSET, HSETNX, HGET, HMGET, HDEL, HLEN, HEXISTS,
//! HSTRLEN, HKEYS, HVALS, HGETALL and HINCRBY.
//!
//! `run` is exactly the row of its command in `specs/Rows.antt`, after the Redis command reference:
//! what becomes of the key, the reply, the change as a command that makes it again, and the events.
//! `run_other_kind` is the row where the key holds another kind of value. `HashCmd::ALL` and
//! `HashCmd::spec` are the list of the commands. The laws say of every row that its effect makes
//! the change again, that a refused command changes nothing, and that the limits of values and
//! requests are kept. Stands on `core_types` and `byte_text`.
//!
//! A command costs the bytes that it reads, writes or answers: finding, putting and counting fields
//! O(1) expected for each of them, HDEL what it moves behind each field, and HKEYS, HVALS and
//! HGETALL the whole hash.
#![tactic(auto)]

mod command;
mod counting;
mod laws;
mod reading;
mod refusing;
mod removing;
mod running;
mod setting;
mod words;

pub use command::HashCmd;
pub use laws::{
    commands_are_listed, effects_remake_changes, limits_are_kept, refusals_change_nothing,
};
pub use running::{run, run_other_kind};
