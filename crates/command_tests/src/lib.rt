//! Tests of the commands and of the map of keys, over the public calls of their crates: rows of the
//! command reference, and that calls which take memory answer with it where there is enough.
#![tactic(auto)]

#[cfg(test)]
mod keys;
#[cfg(test)]
mod serving;
#[cfg(test)]
mod store;
#[cfg(test)]
mod values;
