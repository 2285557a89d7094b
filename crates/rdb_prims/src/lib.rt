//! The lower half of RDB version 9: lengths, strings and the checksum.
//!
//! `read_len` and `read_string` read what stands at a place of a file, in each form that the format
//! has, and otherwise name the first place that is wrong or missing, with its cause. `put_len` and
//! `put_string` write the shortest form, which is read back whatever stands before and behind it.
//! A place has one reading or one fault, by the laws of `laws.rt`. `Crc64` is the checksum, fed in
//! pieces. Stands on `core_types`, and on `byte_text` for decimals.
//!
//! Reading costs the bytes of what is read, and copies a string once; memory is taken for a string
//! only once all of it is there. The checksum costs one look into a table for each byte.
#![tactic(auto)]

mod crc64;
mod laws;
mod length;
mod place;
mod rdb_fault;
mod string;
mod table;

pub use crc64::Crc64;
pub use laws::{checksum_in_pieces, lengths_read_back, one_length, one_string, strings_read_back};
pub use length::{put_len, read_len};
pub use rdb_fault::{RdbFault, RdbStop};
pub use string::{put_string, read_string};
