//! A name.

ghost use Rattle.std.specs.Prelude.{◌≡◌, true, false, IfOk, refl};
ghost use Rattle.std.specs.Ordering.{nat_cmp, as_partial_cmp, eq_by_cmp};
ghost use Rattle.std.specs.Cmp.{eq_by_cmp_equiv, partial_equiv_from_equiv, partial_order_from_total};
ghost use Rattle.std.specs.Cmp.Lexicographic.{slice_cmp, nat_list_cmp_total};
ghost use Rattle.key_store.specs.inner.Names.{bytes_of, IsRight};
ghost use Rattle.key_store.specs.inner.Short.{is_short};

use crate::short_name::{ShortName, is_short};
use core_types::NoMemory;
use std::alloc::Global;
use std::cmp::Ordering;
use std::marker::Model;

/// Where the bytes of a name lie.
#[derive(Debug, Drop)]
pub(crate) enum Place {
    /// In the name itself.
    Here(ShortName),
    /// In a block of their own, as those of a name that is not short.
    Away(Vec<u8>),
}

/// The name of a key: its bytes, which take no block of their own where they are at most 23. Names
/// are in byte order.
#[derive(Debug, Drop)]
pub struct Name {
    place: Place,
}

impl Model for Name {
    ghost use Rattle.std.specs.Prelude.{ℕ, List};
    ghost use Rattle.key_store.specs.inner.Names.{bytes_of, IsRight};

    ghost Value = { List ℕ };

    ghost view = { λ n. bytes_of n.place };

    ghost invariant = { λ n. IsRight n.place };
}

impl Name {
    /// The name of these bytes.
    pub fn new(alloc: Global, bytes: &[u8]) -> Result<Name, NoMemory>
        ensures bytes { IfOk result (λ name. name ≡ bytes.now) }
    {
        if is_short(bytes) {
            Ok(Name {
                place: Place::Here(ShortName::new(bytes)),
            })
        } else {
            Ok(Name {
                place: Place::Away(Vec::from_slice(alloc, bytes)?),
            })
        }
    }

    /// The bytes.
    pub fn as_slice(&self) -> &[u8]
        ensures bytes { result.now ≡ self.now }
    {
        match &self.place {
            Place::Here(name) => name.as_slice(),
            Place::Away(name) => name.as_slice(),
        }
    }

    pub(crate) fn here(name: ShortName) -> Name
        requires { is_short name ≡ true }
        ensures { result ≡ name }
    {
        Name {
            place: Place::Here(name),
        }
    }

    pub(crate) fn away(name: Vec<u8>) -> Name
        requires { is_short name.items ≡ false }
        ensures { result ≡ name.items }
    {
        Name {
            place: Place::Away(name),
        }
    }

    pub(crate) fn into_place(self) -> Place
        ensures bytes { bytes_of result ≡ self }
        ensures right { IsRight result }
    {
        let Name { place } = self;
        place
    }
}

impl PartialEq for Name {
    ghost eq = { eq_by_cmp (slice_cmp nat_cmp) };

    ghost laws = { partial_equiv_from_equiv (eq_by_cmp_equiv nat_list_cmp_total) };

    fn eq(&self, other: &Name) -> bool {
        self.cmp(other).is_eq()
    }
}

impl Eq for Name {
    ghost laws = { eq_by_cmp_equiv nat_list_cmp_total };
}

impl PartialOrd for Name {
    ghost partial_cmp = { as_partial_cmp (slice_cmp nat_cmp) };

    ghost laws = { partial_order_from_total nat_list_cmp_total };

    fn partial_cmp(&self, other: &Name) -> Option<Ordering> {
        Some(self.cmp(other))
    }
}

impl Ord for Name {
    ghost cmp = { slice_cmp nat_cmp };

    ghost total = { nat_list_cmp_total };

    ghost matches_partial_cmp = { λ _ _. refl };

    ghost matches_eq = { λ _ _. refl };

    fn cmp(&self, other: &Name) -> Ordering {
        self.as_slice().cmp(&other.as_slice())
    }
}
