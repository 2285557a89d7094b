//! Tests of a host and of the program over it, over the public calls of their crates: rows of
//! events and of runs in which a call of an object in memory fails, every image of a run, and that
//! calls which take memory answer with it where there is enough.
#![tactic(auto)]

#[cfg(test)]
mod clients;
#[cfg(test)]
mod durable;
#[cfg(test)]
mod runs;
#[cfg(test)]
mod steps;
