//! A short name.

ghost use Rattle.std.specs.Prelude.{◌≡◌, true, refl};
ghost use Rattle.std.specs.Ordering.{nat_cmp, as_partial_cmp, eq_by_cmp};
ghost use Rattle.std.specs.Cmp.{eq_by_cmp_equiv, partial_equiv_from_equiv, partial_order_from_total};
ghost use Rattle.std.specs.Cmp.Lexicographic.{slice_cmp, nat_list_cmp_total};
ghost use Rattle.key_store.specs.inner.Short.{is_short};

use std::cmp::Ordering;
use std::marker::Model;

/// Whether a name has at most 23 bytes.
pub(crate) fn is_short(name: &[u8]) -> bool
    ensures { result ≡ is_short name.now }
{
    name.len() <= 23
}

/// A byte string of at most 23 bytes, which lies where it stands and takes no block of its own.
/// Its order is the byte order.
#[derive(Debug, Drop)]
pub(crate) struct ShortName {
    bytes: [u8; 23],
    len: u8,
}

impl Model for ShortName {
    ghost use Rattle.std.specs.Prelude.{ℕ, List, take, ◌≤◌};

    ghost Value = { List ℕ };

    ghost view = { λ n. take n.len n.bytes };

    ghost invariant = { λ n. n.len ≤ 23 };
}

impl ShortName {
    // The name of these bytes.
    pub(crate) fn new(name: &[u8]) -> ShortName
        requires { is_short name.now ≡ true }
        ensures { result ≡ name.now }
    {
        let mut bytes = [0; 23];
        bytes[..name.len()].copy_from_slice(name);
        ShortName {
            bytes,
            len: name.len() as u8,
        }
    }

    pub(crate) fn as_slice(&self) -> &[u8]
        ensures { result.now ≡ self.now }
    {
        &self.bytes[..self.len as usize]
    }
}

impl PartialEq for ShortName {
    ghost eq = { eq_by_cmp (slice_cmp nat_cmp) };

    ghost laws = { partial_equiv_from_equiv (eq_by_cmp_equiv nat_list_cmp_total) };

    fn eq(&self, other: &ShortName) -> bool {
        self.cmp(other).is_eq()
    }
}

impl Eq for ShortName {
    ghost laws = { eq_by_cmp_equiv nat_list_cmp_total };
}

impl PartialOrd for ShortName {
    ghost partial_cmp = { as_partial_cmp (slice_cmp nat_cmp) };

    ghost laws = { partial_order_from_total nat_list_cmp_total };

    fn partial_cmp(&self, other: &ShortName) -> Option<Ordering> {
        Some(self.cmp(other))
    }
}

impl Ord for ShortName {
    ghost cmp = { slice_cmp nat_cmp };

    ghost total = { nat_list_cmp_total };

    ghost matches_partial_cmp = { λ _ _. refl };

    ghost matches_eq = { λ _ _. refl };

    fn cmp(&self, other: &ShortName) -> Ordering {
        self.as_slice().cmp(&other.as_slice())
    }
}
