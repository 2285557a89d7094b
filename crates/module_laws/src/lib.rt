//! What a module is: a type of values, its commands, and what it does when it is told or asked
//! something.
//!
//! A module works on the keys through a `Context`, which tells contracts one record: the keys, the
//! moment, and what was added. It implements `Module`: each call does exactly what the module's
//! meaning says, a record of functions, and the laws of the trait say what every meaning obeys.
//! That a call's effects, replayed, make the keys that it left is such a law, and that values are
//! counted another. `One` and `Two` make sets of modules, each call by the place of its module;
//! `Two` of lawful sets is a lawful set, and its halves see the context through `Left` and `Right`.
//! docs/MODULES.md says what one has to write.
//!
//! Stands on type_ids and core_types. A call through a set costs O(its depth) beside the module's
//! own, and takes no memory. Joining two sets compares their names and commands pair by pair.
#![tactic(auto)]

mod apart;
mod context;
mod either;
mod halves;
mod joining;
mod laws;
mod left;
mod module;
mod module_set;
mod naming;
mod one;
mod right;
mod two;
mod verdict;
mod viewed;

pub use apart::Apart;
pub use context::{Context, KeyFault, MutFault, SetBack, SetFault};
pub use either::Either;
pub use joining::{TwoBack, TwoFault};
pub use laws::{builtin_effects_stay, effects_make_the_keys, modules_are_sound};
pub use left::Left;
pub use module::Module;
pub use module_set::ModuleSet;
pub use naming::name_of;
pub use one::One;
pub use right::Right;
pub use two::Two;
pub use verdict::{ApplyStop, LoadStop, Verdict};
pub use viewed::Viewed;
