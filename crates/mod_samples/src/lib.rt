//! Modules that meet the laws: a list of numbers in rising order, and words with counts.
//!
//! `HelloType` keeps numbers of 64 bits with a sign in a sorted vector; its commands insert a
//! number, show a range and tell the length. `WordCount` keeps words with counts in a map in byte
//! order; its commands add one to a word, set, read and drop it. What each call does is the
//! module's meaning, a record of functions over saved values (specs/HelloType.antt,
//! specs/WordCount.antt), and each module is proved to meet the laws of `Module`. Stands on
//! module_laws, and for saved parts on tagged_io.
//!
//! Finding the place of a number takes O(log n) comparisons, and moving the numbers behind it O(n).
//! A command on a word costs O(log n). Saving and rewriting are linear.
#![tactic(auto)]

mod answers;
mod count_reading;
mod counts;
mod effects;
mod hello_list;
mod hello_type;
mod reading;
mod rising;
mod tally;
mod word_count;
mod word_counts;
mod words;

pub use hello_list::HelloList;
pub use hello_type::HelloType;
pub use word_count::WordCount;
pub use word_counts::WordCounts;
