//! The entries of a tree, of which the first can be looked at.

ghost use Rattle.std.specs.Prelude.{◌≡◌, length, slice_get};
ghost use Rattle.std.specs.Option.{option_map};
ghost use Rattle.std.specs.Iterator.{at_most};
ghost use Rattle.std.specs.Map.Iter.{TakesFirst, deref_pair};

use std::collections::btree_map::Range;
use std::marker::Model;

/// The entries of a tree in order. They are seen as the list of those that are left.
#[derive(Drop)]
pub(crate) struct Ahead<'a, K, V> {
    next: Option<(&'a K, &'a V)>,
    rest: Range<'a, K, V>,
}

impl<'a, K, V> Model for Ahead<'a, K, V> {
    ghost use Rattle.std.specs.Prelude.{List};
    ghost use Rattle.key_store.specs.inner.Ahead.{ahead};

    ghost Value = { List (K × V) };

    ghost view = { λ a. ahead a.next a.rest };
}

impl<'a, K, V> Ahead<'a, K, V> {
    pub(crate) fn new(entries: Range<'a, K, V>) -> Ahead<'a, K, V>
        ensures { result ≡ entries.entry }
    {
        let mut rest = entries;
        Ahead {
            next: rest.next(),
            rest,
        }
    }

    // The first key.
    pub(crate) fn first(&self) -> Option<&'a K>
        ensures { option_map (λ key. key.now) result
            ≡ option_map (λ e. e.0) (slice_get self.now 0) }
    {
        match self.next {
            Some((key, _)) => Some(key),
            None => None,
        }
    }
}

impl<'a, K, V> Iterator for Ahead<'a, K, V> {
    type Item = (&'a K, &'a V);

    ghost next_gives = { TakesFirst deref_pair };

    ghost remaining = { λ s. at_most (length s) };

    fn next(&mut self) -> Option<(&'a K, &'a V)> {
        match self.next {
            Some(entry) => {
                self.next = self.rest.next();
                Some(entry)
            }
            None => None,
        }
    }
}
