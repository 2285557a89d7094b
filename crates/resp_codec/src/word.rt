//! Words: bulk strings, out of a byte list that is all there.

ghost use Rattle.std.specs.Prelude.{◌≡◌, ◌≤◌, ◌++◌, length, drop};
ghost use Rattle.resp_codec.specs.Marks.{dollar, header};
ghost use Rattle.resp_codec.specs.inner.Word.{JudgesWord};

use crate::header::{Header, judge};
use crate::line::{CR, LineEnd, find, line_end};
use crate::number::read_length;
use core_types::BadRequest;

/// What stands where a word is due.
#[derive(Clone, Copy)]
pub(crate) enum Word {
    /// A word: where its bytes begin, and how many they are. CR LF stands behind them.
    Whole(usize, usize),
    /// A word whose end has not come yet.
    Open,
    /// No word, and the place of the byte that shows it.
    Bad(BadRequest, usize),
}

/// What stands at the front of the bytes.
pub(crate) fn read_word(bytes: &[u8]) -> Word
    ensures { JudgesWord bytes.now result }
{
    match bytes.first().copied() {
        None => return Word::Open,
        Some(b'$') => {}
        Some(byte) => return Word::Bad(BadRequest::ExpectedDollar(byte), 0),
    }
    let end = match judge(bytes, find(bytes, 0, CR)) {
        Header::Open => return Word::Open,
        Header::Bad(kind, place) => return Word::Bad(kind, place),
        Header::Line(end) => end,
    };
    let Some(length) = read_length(&bytes[1..end]) else {
        return Word::Bad(BadRequest::BulkLength, 0);
    };
    take_word(bytes, end + 2, length as usize)
}

// What stands there, where a word of this size is due behind a header of this many bytes.
fn take_word(bytes: &[u8], start: usize, size: usize) -> Word
    requires within { start ≤ length bytes.now }
    requires small { size ≤ 536870912 }
    requires parts { bytes.now ≡ header dollar size ++ drop start bytes.now }
    ensures { JudgesWord bytes.now result }
{
    let (_, rest) = bytes.split_at(start);
    match line_end(rest, size) {
        LineEnd::Open => Word::Open,
        LineEnd::Missing(place) => Word::Bad(BadRequest::NoLineEnd, start + place),
        LineEnd::There => Word::Whole(start, size),
    }
}
