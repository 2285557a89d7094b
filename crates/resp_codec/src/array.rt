//! Arrays out of a byte list that is all there, as a log is.

ghost use Rattle.std.specs.Prelude.{◌≡◌, ◌<◌, ◌≤◌, ◌++◌, ℕ, List, length, drop, slice_get, Some, IfOk};
ghost use Rattle.resp_codec.specs.Marks.{star, header};
ghost use Rattle.resp_codec.specs.inner.Header.{IsHeaderLine};
ghost use Rattle.resp_codec.specs.Array.{IsFront};
ghost use Rattle.resp_codec.specs.declared.array.Array.{Array};

use crate::ahead::ahead;
use crate::header::{Header, judge};
use crate::line::{CR, find};
use crate::number::read_count;
use crate::word::{Word, read_word};
use core_types::{Args, BadRequest, NoMemory};
use std::alloc::Global;

/// What stands at the front of a byte list, where arrays alone may stand.
#[derive(Debug, Drop)]
pub enum Array {
    /// A request of these words, and how many bytes it takes.
    Request(Args, usize),
    /// An array of no words, or of fewer.
    Empty,
    /// No array: the first byte is another than `*`.
    Other,
    /// An array that more bytes may complete.
    Unfinished,
    /// No request, whatever comes after: why, and the place of the bad byte.
    Bad(BadRequest, usize),
}

/// Reads the array at the front of the bytes. What it costs is linear in the array's bytes.
pub fn read_array(alloc: Global, bytes: &[u8]) -> Result<Array, NoMemory>
    requires { 0 < length bytes.now }
    ensures front { IfOk result (λ array. IsFront bytes.now array) }
{
    if bytes[0] != b'*' {
        return Ok(Array::Other);
    }
    match judge(bytes, find(bytes, 0, CR)) {
        Header::Open => Ok(Array::Unfinished),
        Header::Bad(kind, place) => Ok(Array::Bad(kind, place)),
        Header::Line(end) => read_counted(alloc, bytes, end),
    }
}

// Reads the array whose header has this many bytes before its CR LF.
fn read_counted(alloc: Global, bytes: &[u8], end: usize) -> Result<Array, NoMemory>
    requires mark { slice_get bytes.now 0 ≡ Some star }
    requires line { IsHeaderLine bytes.now end }
    ensures { IfOk result (λ array. IsFront bytes.now array) }
{
    match read_count(&bytes[1..end]) {
        None => Ok(Array::Bad(BadRequest::MultibulkLength, 0)),
        Some(0) => Ok(Array::Empty),
        Some(count) => read_words(alloc, bytes, end + 2, count as usize),
    }
}

// Reads the array whose header has this many bytes and gives this count.
fn read_words(alloc: Global, bytes: &[u8], start: usize, count: usize) -> Result<Array, NoMemory>
    requires some { 0 < count }
    requires few { count ≤ 1048576 }
    requires start { start ≡ length (header star count) }
    requires parts { bytes.now ≡ header star count ++ drop start bytes.now }
    ensures { IfOk result (λ array. IsFront bytes.now array) }
{
    let mut words = Args::new(alloc);
    let (due, room) = ahead(count);
    words.reserve(due, room)?;
    let mut place = start;
    while words.len() < count {
        let (_, rest) = bytes.split_at(place);
        match read_word(rest) {
            Word::Whole(begin, size) => {
                words.push(&rest[begin..begin + size])?;
                place += begin + size + 2;
            }
            Word::Open => return Ok(Array::Unfinished),
            Word::Bad(kind, at) => return Ok(Array::Bad(kind, place + at)),
        }
    }
    Ok(Array::Request(words, place))
}

/// At the front of any bytes stands one thing, and one alone: a request, an array without words, no
/// array, an array that more bytes may complete, or a bad place.
pub fn one_front()
    ensures some { (bytes : List ℕ) → 0 < length bytes → (array : Array) × IsFront bytes array }
    ensures one { (bytes : List ℕ) (array other : Array) → IsFront bytes array → IsFront bytes other
        → array ≡ other }
{}
