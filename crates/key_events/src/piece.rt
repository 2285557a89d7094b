//! What a pattern is made of.

ghost use Rattle.std.specs.Prelude.{◌≡◌, ◌<◌, [], ◌∷◌, length, MatchOption};
ghost use Rattle.key_events.specs.Patterns.{pieces_of};
ghost use Rattle.key_events.specs.inner.Walks.{takes};

/// A part of a pattern.
#[derive(Clone, Copy, Debug, PartialEq, Eq)]
pub(crate) enum Piece {
    /// It stands for any bytes.
    Any,
    /// It stands for one byte.
    One,
    /// It stands for this byte.
    Byte(u8),
}

// The first piece of a pattern, and what stands behind it; `None` where the pattern is empty.
pub(crate) fn first_piece(pattern: &[u8]) -> Option<(Piece, &[u8])>
    ensures first { MatchOption result (pattern.now ≡ [])
        (λ r. pieces_of pattern.now ≡ r.0 ∷ pieces_of r.1.now) }
    ensures shorter { MatchOption result (pattern.now ≡ [])
        (λ r. length r.1.now < length pattern.now) }
{
    match pattern {
        [] => None,
        [b'\\', byte, rest @ ..] => Some((Piece::Byte(*byte), rest)),
        [b'*', rest @ ..] => Some((Piece::Any, rest)),
        [b'?', rest @ ..] => Some((Piece::One, rest)),
        [byte, rest @ ..] => Some((Piece::Byte(*byte), rest)),
    }
}

impl Piece {
    // Whether it stands for one byte, and for this one.
    pub(crate) fn takes(self, byte: u8) -> bool
        ensures takes { result ≡ takes self byte }
    {
        match self {
            Piece::Any => false,
            Piece::One => true,
            Piece::Byte(itself) => byte == itself,
        }
    }
}
