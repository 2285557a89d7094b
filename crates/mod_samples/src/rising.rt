//! Numbers in rising order.

ghost use Rattle.std.specs.Prelude.{◌≡◌, [], ◌∷◌, true, length, take, drop, IfOk, OnOk, OnErr};
ghost use Rattle.mod_samples.specs.Rising.{IsPlaceOf, inserted, is_rising};

use core_types::NoMemory;
use std::alloc::Global;
use std::marker::Model;

/// Numbers in rising order; equal ones are kept.
#[derive(Drop)]
pub(crate) struct Rising {
    numbers: Vec<i64>,
}

impl Model for Rising {
    ghost use Rattle.std.specs.Prelude.{◌≡◌, List, ℤ, true};
    ghost use Rattle.mod_samples.specs.Rising.{is_rising};

    ghost Value = { List ℤ };

    ghost view = { λ r. r.numbers.items };

    ghost invariant = { λ r. is_rising r.numbers.items ≡ true };
}

// The place of the first number that is not below another.
fn place_of(numbers: &[i64], n: i64) -> usize
    requires { is_rising numbers.now ≡ true }
    ensures { IsPlaceOf n numbers.now result }
{
    numbers.partition_point(|m| *m < n)
}

impl Rising {
    // These numbers. Takes no memory.
    pub(crate) fn from_vec(numbers: Vec<i64>) -> Rising
        requires { is_rising numbers.items ≡ true }
        ensures { result ≡ numbers.items }
    {
        Rising { numbers }
    }

    // One number.
    pub(crate) fn one(alloc: Global, n: i64) -> Result<Rising, NoMemory>
        ensures { IfOk result (λ numbers. numbers ≡ n ∷ []) }
    {
        let mut numbers: Vec<i64> = Vec::new(alloc);
        numbers.push(n)?;
        Ok(Rising { numbers })
    }

    // Inserts a number at its place, which takes O(log n) comparisons.
    pub(crate) fn insert(&mut self, n: i64) -> Result<(), NoMemory>
        ensures ok { OnOk result (self.new ≡ inserted n self.old) }
        ensures err { OnErr result (self.new ≡ self.old) }
        ensures rising { is_rising self.new ≡ true }
    {
        let place = place_of(&self.numbers, n);
        self.numbers.insert(place, n)?;
        Ok(())
    }

    // How many numbers there are.
    pub(crate) fn len(&self) -> usize
        ensures { result ≡ length self.now }
    {
        self.numbers.len()
    }

    // All numbers.
    pub(crate) fn as_slice(&self) -> &[i64]
        ensures { result.now ≡ self.now }
    {
        &self.numbers
    }

    // At most this many numbers, from a place on.
    pub(crate) fn range(&self, first: u64, count: u64) -> &[i64]
        ensures { result.now ≡ take count (drop first self.now) }
    {
        let length = self.numbers.len() as u64;
        let from = first.min(length);
        let behind = from + count.min(length - from);
        &self.numbers[from as usize..behind as usize]
    }
}
