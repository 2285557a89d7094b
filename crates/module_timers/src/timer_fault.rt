//! Why no timer was set.

/// Why no timer was set. The timers are as they were.
#[derive(Clone, Copy, Debug, PartialEq, Eq)]
pub enum TimerFault {
    /// 65,536 timers are set.
    Full,
    /// The next number is 2^64 - 1, which no timer has.
    NumbersSpent,
    /// Memory ran out.
    Memory,
}
