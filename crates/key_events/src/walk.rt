//! A pattern and a text, side by side, up to the next `*`.

ghost use Rattle.key_events.specs.inner.Walks.{Walked};

use crate::piece::{Piece, first_piece};

/// Where a walk ended.
#[derive(Clone, Copy, Debug)]
pub(crate) enum Walk<'a> {
    /// At a `*`. What stands behind it, and what is left of the text.
    Star(&'a [u8], &'a [u8]),
    /// Before any `*`: whether the whole pattern stands for the whole text.
    Ends(bool),
}

impl<'a> Walk<'a> {
    // Goes through both from their beginning. Takes as many turns as the part before the first `*` has
    // pieces, or the text bytes, and one.
    pub(crate) fn of(pattern: &'a [u8], text: &'a [u8]) -> Walk<'a>
        ensures walked { Walked pattern.now text.now result }
    {
        let mut rest = pattern;
        let mut left = text;
        while let Some((piece, behind)) = first_piece(rest) {
            if piece == Piece::Any {
                return Walk::Star(behind, left);
            }
            let Some((byte, others)) = left.split_first() else {
                return Walk::Ends(false);
            };
            if !piece.takes(*byte) {
                return Walk::Ends(false);
            }
            rest = behind;
            left = others;
        }
        Walk::Ends(left.is_empty())
    }
}
