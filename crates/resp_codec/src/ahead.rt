//! For how much of a request room is taken before it was read.

ghost use Rattle.std.specs.Prelude.{◌≤◌};

// A header alone takes room for no more words than these.
const MOST: usize = 64;

// About how many bytes a word has.
const LIKELY: usize = 16;

/// For how many words, and how many bytes of them, room is taken ahead where this many words are
/// due. A short request then fits, and a header that promises much takes little.
pub(crate) fn ahead(words: usize) -> (usize, usize)
    ensures few { result.0 ≤ 64 }
    ensures short { result.1 ≤ 1024 }
{
    let due = words.min(MOST);
    (due, due * LIKELY)
}
