//! Headers: a mark, a number, and CR LF.

ghost use Rattle.resp_codec.specs.Marks.{cr};
ghost use Rattle.resp_codec.specs.inner.Line.{IsSearchEnd};
ghost use Rattle.resp_codec.specs.inner.Header.{Judges};

use crate::line::{FARTHEST, LineEnd, line_end};
use core_types::BadRequest;

/// What stands where a header is due.
#[derive(Clone, Copy)]
pub(crate) enum Header {
    /// Its CR, or the byte after that, has not come yet.
    Open,
    /// A line of this many bytes before its CR LF.
    Line(usize),
    /// No line, and the place of the byte that shows it.
    Bad(BadRequest, usize),
}

/// What stands at the front of the bytes, where their first CR was looked for and the search ended.
pub(crate) fn judge(bytes: &[u8], end: usize) -> Header
    requires { IsSearchEnd cr end bytes.now }
    ensures { Judges bytes.now result }
{
    if end == FARTHEST {
        return Header::Bad(BadRequest::LineTooLong, 0);
    }
    match line_end(bytes, end) {
        LineEnd::Open => Header::Open,
        LineEnd::There => Header::Line(end),
        LineEnd::Missing(place) => Header::Bad(BadRequest::NoLineEnd, place),
    }
}
