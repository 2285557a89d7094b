//! The clients of a host: a record for each, with its outbox.
//!
//! A `Book` is seen as a register: a finite map from the numbers of clients to their records, each
//! with the place up to which its replies may be taken, and the last number that joined. A record
//! has what its client waits for and what waits for it, its transaction and its watched keys, and
//! what it was told and has not taken. Every call is one change of that register or one thing that
//! it says; `picture` copies the records.
//!
//! A look-up costs O(log n) in the number of clients and takes no memory. `touch` costs by the
//! clients that watch the key, `flush` costs nothing for each client, and `take_out` costs by the
//! bytes that it moves. What was taken is not kept. Only `join`, `pend`, `hold`, `queue`, `watch`
//! and `picture` take memory. It stands on `core_types`, and on `resp_codec` for the text of a
//! reply.
#![tactic(auto)]

mod book;
mod client;
mod entry;
mod outbox;
mod pending;
mod queue;
mod roll;
mod table;
mod watched;
mod watchers;

pub use book::{Book, JoinFault};
pub use client::Client;
pub use pending::{PendFault, Pending};
pub use queue::{Queue, Queued};
pub use roll::Clients;
