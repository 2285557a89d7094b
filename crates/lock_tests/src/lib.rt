//! Tests of the context lock, over its public calls: threads whose stays each add one event, in a
//! tree of split and joined passes; threads in turns, by bells; and waiting that takes no
//! processor. That a lock and its state may be shared by threads is shown by these, since they
//! compile: `join` asks it of what its closures hold.
#![tactic(auto)]

#[cfg(test)]
mod asleep;
#[cfg(test)]
mod bells;
#[cfg(test)]
mod shared;
#[cfg(test)]
mod stays;
pub mod tape;
#[cfg(test)]
mod turns;
