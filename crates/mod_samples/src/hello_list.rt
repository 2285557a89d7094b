//! A value of hellotype.

ghost use Rattle.std.specs.Prelude.{◌≡◌, true};
ghost use Rattle.mod_samples.specs.Rising.{is_rising};

use crate::rising::Rising;
use core_types::NoMemory;

/// A list of numbers in rising order; equal ones are kept. It must be spent.
pub struct HelloList {
    pub(crate) numbers: Rising,
    ghost rising: { is_rising numbers ≡ true },
}

impl HelloList {
    ghost use Rattle.std.specs.Prelude.{OnOk, OnErr};
    ghost use Rattle.mod_samples.specs.Rising.{inserted};

    // The list of these numbers.
    pub(crate) fn new(numbers: Rising) -> HelloList
        requires { is_rising numbers ≡ true }
        ensures { result.numbers ≡ numbers }
    {
        HelloList { numbers }
    }

    // Inserts a number at its place.
    pub(crate) fn insert(&mut self, n: i64) -> Result<(), NoMemory>
        ensures ok { OnOk result (self.new.numbers ≡ inserted n self.old.numbers) }
        ensures err { OnErr result (self.new ≡ self.old) }
    {
        self.numbers.insert(n)
    }

    // Ends it.
    pub(crate) fn end(self) {
        let HelloList { numbers: _ } = self;
    }
}
