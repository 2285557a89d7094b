//! Modules of types whose commands each work on one key, from what is such a type's own alone.
//!
//! A `KeyType` has rows of commands, what each replies or does where its key has a value or none,
//! and how a value is saved, loaded and rewritten. What that means is a record of functions over
//! saved values (specs/KeyMeaning.antt), and its laws (specs/Lawful.antt) ask what the author alone
//! can know: that a change is made again by its effect, that what is left is a value that a key may
//! have, and that loading keeps the limits. `OneKey` makes a module of it. Its meaning follows
//! (specs/MeaningOf.antt) and it is proved to meet every law of `Module`: values are counted, put
//! in, changed in place, handed back and let go, and changes are replicated and told.
//!
//! Stands on module_laws. A command looks its key up once, and copies its words once; a command that
//! reads takes no more memory than its reply.
#![tactic(auto)]

mod held;
mod key_type;
mod laws;
mod one_key;
mod own;
mod running;
mod wrote;

pub use held::Held;
pub use key_type::KeyType;
pub use laws::key_types_are_lawful;
pub use one_key::OneKey;
pub use own::{upper, word_at};
pub use wrote::{Change, Wrote};
