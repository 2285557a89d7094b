//! Tests of the log, the directory that it is in, and a start over both, over the public calls of
//! their crates: small histories with what a crash leaves of them, logs with what they hold, and
//! that calls which take memory answer with it where there is enough.
#![tactic(auto)]

#[cfg(test)]
mod folder;
#[cfg(test)]
mod logs;
#[cfg(test)]
mod memory;
#[cfg(test)]
mod opening;
#[cfg(test)]
mod units;
