//! The program but for its process: the top call, over any directory, source, sink and clock.
//!
//! `modhost` reads the words of a command line. `pipe DIR` starts a durable host over the directory
//! and serves the source as client 1: it comes, for each request the clock is read, the keys that
//! are due go, the request is served and its changes are flushed, and then what it was told is
//! given to the sink; where its stream came to its end it goes. `check DIR` tells what a start
//! would find. The contract says, by the status, what was taken, served, sent and logged, that
//! whatever a crash leaves restarts to the keys after some of the events, and that every byte that
//! was sent was told by a safe event; each fault is told exactly where its object counted one.
//!
//! It stands on `durable_host` for the events and for crashes, on `resp_codec` for the reading of a
//! stream, on `io_edges` for what a source, a sink and a clock tell, and on `restart` for a look. A
//! request costs its event, one append where keys changed and one sync; input is read in pieces of
//! 16 KiB, and a word that is longer is collected once.
#![tactic(auto)]

mod checking;
mod handing;
mod pipe;
mod serving;
mod status;
mod top;
mod words;

pub use pipe::{MAX_INPUT, PIECE, serve_pipe};
pub use status::{Status, status_code};
pub use top::{Ended, modhost};
pub use words::{Job, WordsFault, read_words};
