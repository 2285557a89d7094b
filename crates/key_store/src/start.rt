//! Where the short names begin.

ghost use Rattle.std.specs.Prelude.{◌≡◌, false};
ghost use Rattle.std.specs.declared.ops.Bound.TheVariants.{Included, Excluded};
ghost use Rattle.std.specs.Range.Bound.{bound_map};
ghost use Rattle.key_store.specs.inner.Short.{is_short};
ghost use Rattle.key_store.specs.inner.Starts.{IsSameStart};

use crate::short_name::{ShortName, is_short};
use std::ops::Bound;

/// Where the short names begin, of the names from this on.
pub(crate) fn short_start(start: Bound<&Vec<u8>>) -> Bound<ShortName>
    ensures { IsSameStart result (bound_map (λ name. name.now.items) start.entry) }
{
    match start {
        Bound::Included(name) if is_short(name) => Bound::Included(ShortName::new(name)),
        Bound::Excluded(name) if is_short(name) => Bound::Excluded(ShortName::new(name)),
        Bound::Included(name) => behind_front(name),
        Bound::Excluded(name) => behind_front(name),
        Bound::Unbounded => Bound::Unbounded,
    }
}

// The short names behind a longer name are those behind as much of it as a short name has.
fn behind_front(name: &[u8]) -> Bound<ShortName>
    requires long { is_short name.now ≡ false }
    ensures from { IsSameStart result (Included name.now) }
    ensures after { IsSameStart result (Excluded name.now) }
{
    Bound::Excluded(ShortName::new(&name[..23]))
}
