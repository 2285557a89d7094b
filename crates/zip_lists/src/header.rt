//! The header: the number of bytes, where the last entry begins, and the number of entries.

ghost use Rattle.std.specs.Prelude.{◌≡◌, ◌+◌, ◌≤◌, length, take, drop, IfSome, IfNone};
ghost use Rattle.zip_lists.specs.Numbers.{little};
ghost use Rattle.zip_lists.specs.Ziplist.{header_size, total_of, last_of, count_of};
ghost use Rattle.zip_lists.specs.BadPlace.{IsFirstBad};

/// How many bytes the header has.
pub(crate) const SIZE: usize = 10;

/// Where the offset of the last entry stands.
pub(crate) const LAST: usize = 4;

/// Where the number of entries stands.
pub(crate) const COUNT: usize = 8;

/// The first bad place, where it shows before any entry: a byte of the header is missing, or the
/// total is another than that of all bytes.
pub(crate) fn judge_header(bytes: &[u8]) -> Option<usize>
    ensures bad { IfSome result (IsFirstBad bytes.now) }
    ensures whole { IfNone result (header_size ≤ length bytes.now) }
    ensures total { IfNone result (total_of bytes.now ≡ length bytes.now) }
{
    let size = bytes.len();
    if size < LAST {
        return Some(size);
    }
    if four_bytes(bytes, 0) != size {
        return Some(0);
    }
    if size < SIZE {
        return Some(size);
    }
    None
}

/// Where the last entry is said to begin.
pub(crate) fn last(bytes: &[u8]) -> usize
    requires { header_size ≤ length bytes.now }
    ensures { result ≡ last_of bytes.now }
{
    four_bytes(bytes, LAST)
}

/// How many entries there are said to be.
pub(crate) fn count(bytes: &[u8]) -> usize
    requires { header_size ≤ length bytes.now }
    ensures { result ≡ count_of bytes.now }
{
    usize::from(u16::from_le_bytes([bytes[COUNT], bytes[COUNT + 1]]))
}

// The number in four bytes, the lowest first.
fn four_bytes(bytes: &[u8], place: usize) -> usize
    requires { place + 4 ≤ length bytes.now }
    ensures { result ≡ little (take 4 (drop place bytes.now)) }
{
    let (_, rest) = bytes.split_at(place);
    u32::from_le_bytes([rest[0], rest[1], rest[2], rest[3]]) as usize
}
