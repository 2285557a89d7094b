//! What every crate shares: values, replies, effects, events, and the finite map of keys.
//!
//! A `Line` is seen by contracts as its bytes (each of them printable), and `Replies` as a count
//! and a flat list of parts, so that no type contains itself. Every call that takes memory answers
//! `NoMemory` alone, and an `Err` leaves its object as it was. Appending is amortized O(1) an item;
//! nothing else here costs more than the bytes it copies. Byte strings and lists are those of
//! `sequences`, and are handed on.
#![tactic(auto)]

mod bad_request;
mod client_state;
mod command_spec;
mod cut;
mod effect;
mod event;
mod field;
mod field_map;
mod hash_body;
mod key_laws;
mod line;
mod list_body;
mod load_fault;
mod note;
mod order;
mod outcome;
mod outs;
mod part;
mod parts;
mod refusal;
mod replies;
mod reply;
mod stop;
mod tagged;
mod value;

pub use bad_request::BadRequest;
pub use client_state::ClientState;
pub use command_spec::CommandSpec;
pub use cut::{Cut, cut_range};
pub use effect::{Chore, Chores, Effect, Effects};
pub use event::{Answer, Event, Events};
pub use field::{Field, Fields};
pub use hash_body::HashBody;
pub use key_laws::{keys_by_key, keyspace_is_kept};
pub use line::Line;
pub use list_body::ListBody;
pub use load_fault::{LoadFault, RdbCause};
pub use note::{Note, NoteClass, Notes};
pub use order::{Order, Orders};
pub use outcome::{After, Outcome};
pub use outs::{Out, Outs};
pub use part::Part;
pub use refusal::{Refusal, invalid_expire, unknown_command, wrong_arity};
pub use replies::Replies;
pub use reply::Reply;
pub use sequences::{Args, Blob, Commands, Draft, Duplicate, NoMemory, Sequence, Words};
pub use stop::{Cause, Stop};
pub use tagged::{Items, Tagged};
pub use value::{Kind, Value};
