//! Tests of what a replica is fed, over the public calls of its crate: frames byte by byte, what a
//! backlog gives since each number, and what becomes of frames that come in any order; and that
//! calls which take memory answer with it where there is enough.
#![tactic(auto)]

#[cfg(test)]
mod backlogs;
#[cfg(test)]
mod frames;
#[cfg(test)]
mod replicas;
#[cfg(test)]
mod sets;
#[cfg(test)]
mod streams;
