//! Whether a pattern stands for a text.

ghost use Rattle.std.specs.Prelude.{◌≡◌};
ghost use Rattle.key_events.specs.Patterns.{matches, some_end, fits, pieces_of};

use crate::walk::Walk;

/// Whether a pattern stands for a text: `*` for any bytes, `?` for one byte, a backslash and a byte
/// for that byte, a backslash at the end for itself, every other byte for itself. Takes no memory,
/// and no more turns than the product of both lengths, each taken as one more.
pub fn matches(pattern: &[u8], text: &[u8]) -> bool
    ensures matches { result ≡ matches pattern.now text.now }
{
    match Walk::of(pattern, text) {
        Walk::Star(behind, left) => matches_an_end(behind, left),
        Walk::Ends(is_whole) => is_whole,
    }
}

// Whether a pattern stands for an end of a text. Where it fits as far as to its next `*`, the first
// place where it does is as good as any later one: so what came before is never tried again.
fn matches_an_end(pattern: &[u8], text: &[u8]) -> bool
    ensures matches { result ≡ some_end (fits (pieces_of pattern.now)) text.now }
{
    let mut rest = pattern;
    let mut left = text;
    loop {
        match Walk::of(rest, left) {
            Walk::Star(behind, others) => {
                rest = behind;
                left = others;
            }
            Walk::Ends(true) => return true,
            Walk::Ends(false) => match left.split_first() {
                Some((_, others)) => left = others,
                None => return false,
            },
        }
    }
}
