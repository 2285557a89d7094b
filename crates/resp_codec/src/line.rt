//! Where lines end: at CR LF, or at LF alone.

ghost use Rattle.resp_codec.specs.inner.Line.{IsSearched, IsSearchEnd, IsFound};

pub(crate) const CR: u8 = b'\r';

pub(crate) const LF: u8 = b'\n';

/// The byte that ends a line is looked for among this many of the first bytes.
pub(crate) const FARTHEST: usize = 65_537;

/// What stands where CR LF is due.
#[derive(Clone, Copy)]
pub(crate) enum LineEnd {
    /// Nothing yet, or a CR alone.
    Open,
    /// CR LF.
    There,
    /// At this place a byte that is not the CR, or not the LF.
    Missing(usize),
}

/// How many bytes stand before the first such byte, or as many as it was looked for among.
pub(crate) fn find(bytes: &[u8], searched: usize, sought: u8) -> usize
    requires { IsSearched sought searched bytes.now }
    ensures { IsSearchEnd sought result bytes.now }
{
    let end = bytes.len().min(FARTHEST);
    for place in searched..end {
        if bytes[place] == sought {
            return place;
        }
    }
    end
}

/// What stands at a place where CR LF is due.
pub(crate) fn line_end(bytes: &[u8], place: usize) -> LineEnd
    ensures { IsFound bytes.now place result }
{
    match bytes.get(place..) {
        None | Some([]) | Some([CR]) => LineEnd::Open,
        Some([CR, LF, ..]) => LineEnd::There,
        Some([CR, ..]) => LineEnd::Missing(place + 1),
        Some(_) => LineEnd::Missing(place),
    }
}
