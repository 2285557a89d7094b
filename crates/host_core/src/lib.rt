//! The machine: what each event of a host means, and the core that does it.
//!
//! A state has the keys, the moment and the clients. `specs/Events.antt` defines a step by one
//! function for each event: the state after it, the replies with their clients, the changes of the
//! keys as commands that make them again, and the answer. `specs/Serving.antt` says what serving a
//! request means, `specs/Replay.antt` what a change in a log makes of the keys, and
//! `specs/Fold.antt` what a run over a list of events is; laws are said of these definitions.
//! `Core::step` makes exactly the step of an event, and `Core::replay` exactly a change of a log.
//! What a client is told it may take after the next flush. Want of memory is the only stop of a
//! step; the clients and the moment are then as they were.
//!
//! `Builtin` is the list of the commands that are served: those of a connection, and those of
//! `key_cmds`. It stands on `key_cmds` for what a command does to the keys, on `client_book` for
//! what is known of a client, on `command_registry` for the names, and on `effect_log` for what a
//! replay may answer. A step costs its command and two look-ups, of the name and of the client; a
//! reply is made once, and its text is written once into the client's bytes. A tick with no key due
//! costs one look at the first deadline.
#![tactic(auto)]

mod builtin;
mod connection;
mod expiring;
mod given;
mod laws;
mod loading;
mod machine;
mod names;
mod no_value;
mod opening;
mod replaying;
mod serving;
mod stepped;

pub use builtin::Builtin;
pub use connection::ConnectionCmd;
pub use laws::{
    commands_are_known, effects_make_the_keys, limits_are_kept, others_are_no_changes,
    replies_are_told, runs_are_joined, steps_look_at_no_outbox, ticks_leave_none_due,
};
pub use machine::Core;
pub use no_value::NoValue;
pub use opening::Opening;
pub use stepped::Stepped;
