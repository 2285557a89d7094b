//! The append-only log: what each event writes to it, and how it is read again.
//!
//! `unit_text` gives exactly the text of an event's effects: nothing for none, the effect's own
//! request for one, and for several their requests between MULTI and EXEC. It costs the bytes that
//! it writes. `LogReader` gives exactly the units of a log, where each effect begins, and at the
//! end nothing, the place of a torn unit, or the first fault of form. It goes over the bytes once,
//! copies no more than one unit at a time, and stands on `resp_codec` for requests.
#![tactic(auto)]

mod entry;
mod front;
mod reader;
mod reason;
mod replayer;
mod unit;

pub use reader::{LogReader, NextUnit, one_log, units_read_back};
pub use reason::Reason;
pub use replayer::{ReplayStop, Replayer, log_goes_on, one_replay};
pub use unit::unit_text;
