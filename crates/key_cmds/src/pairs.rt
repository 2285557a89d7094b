//! The words of MSET two by two, each a key and the string that it is to have.

ghost use Rattle.std.specs.Prelude.{◌≡◌, length};
ghost use Rattle.std.specs.Iterator.{at_most};
ghost use Rattle.std.specs.Map.Iter.{TakesFirst};
ghost use Rattle.key_cmds.specs.SeveralKeys.{pairs_of};
ghost use Rattle.key_cmds.specs.inner.Several.{pair_in_place};

use core_types::Words;
use std::marker::Model;

/// The pairs of some words, in order; a last word without another is left out. It is seen as the
/// list of those that are left.
#[derive(Drop)]
pub(crate) struct Pairs<'a> {
    words: Words<'a>,
}

impl<'a> Model for Pairs<'a> {
    ghost use Rattle.std.specs.Prelude.{List};
    ghost use Rattle.key_cmds.specs.SeveralKeys.{Pair, pairs_of};

    ghost Value = { List Pair };

    ghost view = { λ p. pairs_of p.words };
}

impl<'a> Pairs<'a> {
    pub(crate) fn new(words: Words<'a>) -> Pairs<'a>
        ensures pairs { result ≡ pairs_of words.entry }
    {
        Pairs { words }
    }
}

impl<'a> Iterator for Pairs<'a> {
    type Item = (&'a [u8], &'a [u8]);

    ghost next_gives = { TakesFirst pair_in_place };

    ghost remaining = { λ s. at_most (length s) };

    fn next(&mut self) -> Option<(&'a [u8], &'a [u8])> {
        let Some(key) = self.words.next() else {
            return None;
        };
        match self.words.next() {
            Some(value) => Some((key, value)),
            None => None,
        }
    }
}
