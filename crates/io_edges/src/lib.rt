//! A source, a sink and a clock: where a program reads, where it writes, and what tells it the
//! time.
//!
//! The traits `Source`, `Sink` and `Clock` each have one ghost member, `told`: what the object
//! holds, where it tells that, and how often it has failed. A call of `take` or `put` that answers
//! Ok counted no fault, and one that answers its fault counted one; `now` always answers. The bytes
//! that are taken are the next ones of the input, and the bytes that are put stand behind those
//! before.
//!
//! `MemorySource`, `MemorySink` and `FixedClock` tell all, and the first two fail at the calls that
//! they are told to; `laws` says so. `RealSource` and `RealSink` are any reader and writer: a call
//! that a signal interrupted is made again. `RealClock` is the clock of the system. Making one in
//! memory takes memory for its content, and a `MemorySink` for what it gets; nothing else does. It
//! stands on `sequences`.
#![tactic(auto)]

mod clock;
mod fault_plan;
mod fixed_clock;
mod laws;
mod memory_sink;
mod memory_source;
mod real_clock;
mod real_sink;
mod real_source;
mod sink;
mod source;

pub use clock::Clock;
pub use fixed_clock::FixedClock;
pub use laws::{memory_tells, readings_in_parts, zero_is_the_end};
pub use memory_sink::MemorySink;
pub use memory_source::MemorySource;
pub use real_clock::RealClock;
pub use real_sink::RealSink;
pub use real_source::RealSource;
pub use sink::{Sink, SinkFault};
pub use source::{Source, SourceFault};
