//! The keys in order.

ghost use Rattle.std.specs.Prelude.{◌≡◌, map, length};
ghost use Rattle.std.specs.Iterator.{at_most};
ghost use Rattle.std.specs.Option.{option_map};
ghost use Rattle.std.specs.Map.Iter.{TakesFirst, deref_pair};
ghost use Rattle.key_store.specs.inner.Halves.{comes_first, merged};

use crate::ahead::Ahead;
use crate::short_name::ShortName;
use crate::stored::Stored;
use core_types::Value;
use std::collections::btree_map::Range;
use std::marker::Model;

/// The keys of a store in byte order, each with its value. It is seen as the list of those that are
/// left.
#[derive(Drop)]
pub struct Entries<'a, N> {
    short: Ahead<'a, ShortName, Stored<N>>,
    long: Ahead<'a, Vec<u8>, Stored<N>>,
}

impl<'a, N> Model for Entries<'a, N> {
    ghost use Rattle.std.specs.Prelude.{ℕ, List, map};
    ghost use Rattle.std.specs.Coded.{coded_list, coded×};
    ghost use Rattle.core_types.specs.declared.value.Value as value;
    ghost use Rattle.key_store.specs.Codes.{bytes_code, value_code};
    ghost use Rattle.key_store.specs.inner.Halves.{merged};

    ghost Value = { List (List ℕ × value.Value N) };

    ghost coded = { coded_list (coded× bytes_code (value_code N.code)) };

    ghost view = { λ a. map (λ e. (e.0, e.1.value))
        (merged (map (λ e. (e.0, e.1)) a.short) (map (λ e. (e.0.items, e.1)) a.long)) };
}

impl<'a, N> Entries<'a, N> {
    pub(crate) fn new(
        short: Range<'a, ShortName, Stored<N>>,
        long: Range<'a, Vec<u8>, Stored<N>>,
    ) -> Entries<'a, N>
        ensures { result ≡ map (λ e. (e.0, e.1.value))
            (merged (map (λ e. (e.0, e.1)) short.entry) (map (λ e. (e.0.items, e.1)) long.entry)) }
    {
        Entries {
            short: Ahead::new(short),
            long: Ahead::new(long),
        }
    }
}

impl<'a, N> Iterator for Entries<'a, N> {
    type Item = (&'a [u8], &'a Value<N>);

    ghost next_gives = { TakesFirst deref_pair };

    ghost remaining = { λ s. at_most (length s) };

    fn next(&mut self) -> Option<(&'a [u8], &'a Value<N>)> {
        if comes_first(self.short.first(), self.long.first()) {
            match self.short.next() {
                Some((key, stored)) => Some((key.as_slice(), stored.value())),
                None => None,
            }
        } else {
            match self.long.next() {
                Some((key, stored)) => Some((key.as_slice(), stored.value())),
                None => None,
            }
        }
    }
}

/// Whether the first of the short names comes before the first of the long ones.
pub(crate) fn comes_first(short: Option<&ShortName>, long: Option<&Vec<u8>>) -> bool
    ensures { result ≡ comes_first (option_map (λ name. name.now) short.entry)
        (option_map (λ name. name.now.items) long.entry) }
{
    match (short, long) {
        (None, _) => false,
        (Some(_), None) => true,
        (Some(short), Some(long)) => short.as_slice().cmp(&long.as_slice()).is_lt(),
    }
}
