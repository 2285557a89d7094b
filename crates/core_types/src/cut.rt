//! The rule by which GETRANGE, LRANGE and LTRIM take a range.

ghost use Rattle.std.specs.Prelude.{◌≡◌, ◌≤◌, min};
ghost use Rattle.core_types.specs.Cutting.{range_start, range_end};

/// The places from `start` on and before `end`, none where they are equal.
#[derive(Clone, Copy, Debug, PartialEq, Eq)]
pub struct Cut {
    /// The first place.
    pub start: usize,
    /// The place after the last.
    pub end: usize,
}

/// Of `size` places, those that the range from `first` to `last` takes. A number below 0 counts
/// from the end. The range is cut where it begins before the first place or ends after the last;
/// where it ends before it begins it takes none.
pub fn cut_range(size: usize, first: i64, last: i64) -> Cut
    ensures end { result.end ≡ range_end size last }
    ensures start { result.start ≡ min (range_start size first) (range_end size last) }
    ensures within { result.end ≤ size }
{
    let end = end_of(size, last);
    Cut {
        start: start_of(size, first).min(end),
        end,
    }
}

fn start_of(size: usize, first: i64) -> usize
    ensures { result ≡ range_start size first }
{
    let count = first.unsigned_abs() as usize;
    if first < 0 {
        size.saturating_sub(count)
    } else {
        count
    }
}

fn end_of(size: usize, last: i64) -> usize
    ensures { result ≡ range_end size last }
{
    let count = last.unsigned_abs() as usize;
    if last < 0 {
        size.saturating_sub(count - 1)
    } else {
        size.min(count + 1)
    }
}
