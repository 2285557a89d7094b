//! Numbers and names as bytes: canonical decimals both ways, and names without regard to case.
//!
//! A 64-bit number has one decimal: its digits, with no zero in front of another digit, and a `-`
//! in front of them below zero. `i64_text` and `u64_text` give it as a `Decimal`, which contracts
//! see as its bytes, and `read_i64` and `read_u64` answer a number exactly for the decimal of one;
//! `number_in` answers 0 for any other text. `same_name` compares two names without regard to the
//! case of ASCII letters. Stands on nothing but std.
//!
//! No call takes memory. Each costs at most the bytes that it is given, and a decimal has at most
//! twenty.
#![tactic(auto)]

mod decimal;
mod laws;
mod name;
mod number;

pub use decimal::{Decimal, i64_text, u64_text};
pub use laws::{decimals_are_canonical, decimals_are_short, names_by_bytes};
pub use name::same_name;
pub use number::{number_in, read_i64, read_u64};
