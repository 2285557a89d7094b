//! The commands on the keys of a host: those on one string, list or hash, those on several keys,
//! and those on the moment at which a key is due.
//!
//! `run` does to the keys exactly what the row of its command in `specs/Rows.antt` says at a
//! moment, after the Redis command reference: the keys, the reply, the changes as commands that
//! make them again, the events, and the values of modules that leave. `expire_first` removes the
//! key that is due first. Laws say that one effect makes each change again, that what the keys may
//! be they stay, and that no value of a module is lost or doubled. Want of memory changes nothing:
//! an MSET sets all of its keys or none. Stands on `key_store` for the keys and on `string_cmds`,
//! `list_cmds` and `hash_cmds` for the commands on one of them.
//!
//! A key is looked up in O(log n) and without memory; a value is changed in its place. DEL costs
//! the words and what they name. Of a module's value nothing is asked but the name of its type, and
//! none is dropped: what leaves is handed to the caller.
#![tactic(auto)]

mod all_or_none;
mod command;
mod deadlines;
mod deleting;
mod laws;
mod limits;
mod module_value;
mod on_hash;
mod on_list;
mod on_string;
mod pairs;
mod plain;
mod ran;
mod running;
mod setting;
mod settling;
mod several_keys;

pub use command::{Command, KeyCmd};
pub use deadlines::{ExpiredKey, expire_first};
pub use laws::{effects_remake_changes, refusals_change_nothing};
pub use limits::{limits_are_kept, natives_are_kept};
pub use module_value::ModuleValue;
pub use ran::Ran;
pub use running::run;
