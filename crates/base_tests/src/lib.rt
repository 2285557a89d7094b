//! Tests of the crates at the bottom, over their public calls: what no clause says, as rows from
//! outside, and that calls which take memory answer with it where there is enough.
//!
//! A crate with tests is proved twice, and the crates below are dear. So their tests stand here,
//! where the tests alone are proved.
#![tactic(auto)]

#[cfg(test)]
mod names;
#[cfg(test)]
mod requests;
#[cfg(test)]
mod texts;
#[cfg(test)]
mod values;
