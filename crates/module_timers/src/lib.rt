//! The timers of modules.
//!
//! `Timers` is the finite map of the timers that are set, each with the place of its module, its
//! deadline and its parcel, and the number of the next one; each call is one step of it or one look
//! at it, and each refusal has its exact cause. Numbers rise from 1 and none is given twice. A
//! module stops its own timers alone. The timer that is due is the one of the least deadline, and
//! of several the one of the least number. It stands on `sequences` alone.
//!
//! `start`, `stop` and `take` are O(log n) in the number of timers. So is `due` where the first
//! timer by deadline is below the number that is asked for, as it is for whoever asks for those
//! that were set before a moment; else it looks at those that come before in order. `held` is
//! linear. Only `start` and `held` take memory.
#![tactic(auto)]

mod dues;
mod laws;
mod table;
mod timer;
mod timer_fault;
mod timers;

pub use laws::the_first_is_due;
pub use timer::Timer;
pub use timer_fault::TimerFault;
pub use timers::{TimerList, Timers};
