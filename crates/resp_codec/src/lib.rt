//! RESP2: a stream of bytes to requests, and replies and requests to bytes.
//!
//! A `Reader` is seen as the number of bytes it has passed and the bytes fed beyond them. `next`
//! gives the requests of the joined bytes, as arrays or on one line, and no others, in whatever
//! pieces they came, or the kind and the place of the first byte that makes them no requests: the
//! one whole reading of the bytes, by the laws of `laws.rt`. `write_reply` appends exactly the text
//! of a reply, and `write_request` a spelling that is read back, whatever follows it. `read_array`
//! says what stands at the front of bytes that are all there, where arrays alone may stand. Stands
//! on `core_types`, `byte_text` for decimals, and `bytes`.
//!
//! Reading is linear in the bytes fed, whatever the pieces: the reader keeps its place, and copies
//! the bytes of words once out of the input into the request that they make, also those of a word
//! that is not whole, for which room is taken once. A short request takes two blocks. Writing is
//! linear: a decimal takes no memory of its own, room for the words of a request is taken at once,
//! and what is large lets the buffer grow by its size and not to the double.
#![tactic(auto)]

mod ahead;
mod array;
mod header;
mod inline;
mod input;
mod laws;
mod line;
mod number;
mod protocol_error;
mod reader;
mod reading;
mod word;
mod writer;

pub use array::{Array, one_front, read_array};
pub use laws::{any_pieces, bad_for_good, one_reading, one_serving, one_spelling, reading_goes_on};
pub use protocol_error::bad_reply;
pub use reader::{Got, Reader};
pub use writer::{write_reply, write_request};
