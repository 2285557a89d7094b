//! Tests of the crates that stand by themselves, over their public calls: tickets and what waits on
//! keys, timers, values that wait to be freed, the registry of commands, sources, sinks and clocks,
//! and the forms of a dump. Rows are from other programs and from the descriptions of the forms;
//! and calls which take memory answer with it where there is enough.
#![tactic(auto)]

#[cfg(test)]
mod channels;
#[cfg(test)]
mod dump;
#[cfg(test)]
mod edges;
#[cfg(test)]
mod reclaims;
#[cfg(test)]
mod registry;
#[cfg(test)]
mod tickets;
#[cfg(test)]
mod timers;
#[cfg(test)]
mod waiters;
#[cfg(test)]
mod ziplists;
