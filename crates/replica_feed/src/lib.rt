//! What a replica is fed, and what it makes of it.
//!
//! A `Frame` says to a replica what the keys are after some number of events of a run, or what
//! the next events did to them. `write_frame` appends exactly its text. A `FrameReader` is fed a
//! stream in pieces and tells each frame with the offset of its first byte, or the first request
//! that is no frame. A `Backlog` is seen as the units that it keeps, and `since` gives the frame
//! that goes on from a number. A `Replica` applies frames in whatever order they come, with losses
//! and repeats: after each its keys are those after as many events as its number says, by the laws
//! of `laws.rt`. Stands on `core_types`, `byte_text` for decimals, `resp_codec` and `effect_log`.
//!
//! Writing is linear in the text, and reading in the stream. `push` and `since` copy one unit's effects; `since` finds its
//! unit in O(log n), and `push` adds one in amortized O(1). `apply` costs what its effects or its
//! file cost to replay.
#![tactic(auto)]

mod backlog;
mod fault;
mod frame;
mod fronts;
mod laws;
mod reader;
mod replica;
mod requests;
mod units;
mod words;
mod writing;

pub use backlog::{Backlog, Since};
pub use fault::FrameFault;
pub use frame::Frame;
pub use fronts::FrontReplayer;
pub use laws::{backlog_stands, frames_read_back, replica_follows};
pub use reader::{FrameReader, NextFrame};
pub use replica::{Applied, Replica};
pub use writing::{WriteStop, write_frame};
