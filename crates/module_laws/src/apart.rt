//! That two halves have no type in common.

ghost use Rattle.std.specs.Prelude.{◌≡◌, true};
ghost use Rattle.module_laws.specs.Types.{are_apart};

use crate::viewed::Viewed;
use std::marker::PhantomData;

/// Shows that two kinds of values have no type in common. It holds nothing.
pub struct Apart<L: Viewed, R: Viewed> {
    of: PhantomData<(L, R)>,
    pub ghost apart: { are_apart L.types R.types ≡ true },
}

impl<L: Viewed, R: Viewed> Apart<L, R> {
    /// Where they have none.
    pub fn new() -> Apart<L, R>
        requires { are_apart L.types R.types ≡ true }
    {
        Apart { of: PhantomData }
    }
}

impl<L: Viewed, R: Viewed> Drop for Apart<L, R> {
    fn drop(self) {
        let Apart { of: _ } = self;
    }
}
