//! Tests of the crates that modules are written with, over their public calls: modules alone and in
//! sets, values that are saved and loaded, boxes, and opened keys.
//!
//! A crate with tests is proved twice. So these stand here, where only the tests themselves are
//! proved, with one context (`shelf`) and one way to set modules to work (`at_work`) for all.
#![tactic(auto)]

#[cfg(test)]
mod at_work;
#[cfg(test)]
mod boxes;
#[cfg(test)]
mod counters;
#[cfg(test)]
mod items;
#[cfg(test)]
mod least;
#[cfg(test)]
mod opened;
#[cfg(test)]
mod samples;
#[cfg(test)]
mod shelf;
#[cfg(test)]
mod slot;
#[cfg(test)]
mod strings;
#[cfg(test)]
mod text;
#[cfg(test)]
mod wrong;
