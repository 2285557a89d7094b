//! The names of module data types, and the ids that a snapshot stores for them.
//!
//! A `TypeName` has nine letters out of 64 and is not the reserved one; contracts see it as its
//! nine bytes. `id_of` packs it into 64 bits, six a letter with the first in the highest, and an
//! encoding version in the lowest ten, as the Modules API does; `split` takes them apart again.
//! Each is the other's inverse. Stands on std alone, and on thiserror for the texts of its faults.
//!
//! No call takes memory. Each costs at most nine letters.
#![tactic(auto)]

mod id;
mod laws;
mod letter;
mod name_fault;
mod type_name;

pub use id::{id_of, split};
pub use laws::{ids_are_inverse, letters_in_order, name_or_fault};
pub use name_fault::NameFault;
pub use type_name::TypeName;
