//! The words of a request, one after the other.

ghost use Rattle.std.specs.Prelude.{◌≡◌, ◌==◌, ◌<◌, ◌^◌, length, drop};
ghost use Rattle.std.specs.Iterator.{at_most};
ghost use Rattle.std.specs.Map.Iter.{TakesFirst, deref};

use crate::Args;
use std::marker::Model;

/// The words from some place on, in order. It is seen as the list of those that are left.
#[derive(Drop)]
pub struct Words<'a> {
    args: &'a Args,
    place: usize,
}

impl<'a> Model for Words<'a> {
    ghost use Rattle.std.specs.Prelude.{ℕ, List, drop};

    ghost Value = { List (List ℕ) };

    ghost view = { λ w. drop w.place w.args.now };
}

impl<'a> Words<'a> {
    pub(crate) fn new(args: &'a Args, place: usize) -> Words<'a>
        ensures words { result ≡ drop place args.now }
    {
        Words { args, place }
    }

    /// The number of words that are left.
    pub fn len(&self) -> usize
        ensures length { result ≡ length self.now }
        ensures small { result < 2 ^ 63 }
    {
        self.args.len().saturating_sub(self.place)
    }

    /// Whether no word is left.
    pub fn is_empty(&self) -> bool
        ensures empty { result ≡ (length self.now == 0) }
    {
        self.len() == 0
    }
}

impl<'a> Iterator for Words<'a> {
    type Item = &'a [u8];

    ghost next_gives = { TakesFirst deref };

    ghost remaining = { λ s. at_most (length s) };

    #[tactic(auto, using(std::proofs::lemmas::List::drop_more), unfolding(crate::specs::Words::word))]
    fn next(&mut self) -> Option<&'a [u8]> {
        if self.place >= self.args.len() {
            return None;
        }
        let word = self.args.word(self.place);
        self.place += 1;
        Some(word)
    }
}
