//! Channels of key events.
//!
//! `Channels` is two finite maps, from clients to the channels that each has and to its patterns,
//! the oldest first; each call is one step of them or one look at them, and each refusal has its
//! exact cause. `messages` gives what subscribers are told of an event of a key, exactly and in
//! order, and `matches` says whether a pattern stands for a text. It stands on `sequences` and on
//! `core_types`, for notes and replies.
//!
//! A step on one client is O(log n) in the number of clients and of names, and linear in the names
//! of that client, of which there are at most 1,024. `messages` looks up two channels, and tries
//! each pattern on both once, however many clients have it; else it costs what is told. Where
//! nobody has a channel or a pattern it is O(1). `matches` takes no memory, and at most as many
//! turns as the product of both lengths, each taken as one more. Only `subscribe`, `names` and
//! `messages` take memory.
#![tactic(auto)]

mod channel_fault;
mod channels;
mod line;
mod lines;
mod matching;
mod message;
mod names;
mod piece;
mod roll;
mod rolls;
mod table;
mod telling;
mod walk;

pub use channel_fault::ChannelFault;
pub use channels::Channels;
pub use matching::matches;
