//! Takes the parts of a value that is loaded.

ghost use Rattle.std.specs.Prelude.{◌≡◌, [], length, OnOk, OnErr};
ghost use Rattle.std.specs.Result.{result_copied};
ghost use Rattle.tagged_io.specs.Taking.{first_number, first_signed, Gives, past_first};

use crate::{TaggedKind, TakeFault};
use core_types::{Items, Tagged};
use std::marker::Model;

/// A reader of saved parts. It holds no copy of them, and takes no memory.
#[derive(Debug, Drop)]
pub struct TaggedIn<'a> {
    items: &'a [Tagged],
    // The place of the next part.
    place: usize,
}

impl<'a> Model for TaggedIn<'a> {
    ghost use Rattle.std.specs.Prelude.{◌≤◌, length, take, drop};
    ghost use Rattle.tagged_io.specs.Taking.{Taking};

    ghost Value = { Taking };

    ghost view = { λ r. record {
      taken = take r.place r.items.now;
      left =
          drop r.place r.items.now;
    } };

    ghost invariant = { λ r. r.place ≤ length r.items.now };
}

impl<'a> TaggedIn<'a> {
    /// A reader that has taken none of these parts.
    pub fn new(items: &'a Items) -> TaggedIn<'a>
        ensures taken { result.taken ≡ [] }
        ensures left { result.left ≡ items.now }
    {
        TaggedIn {
            items: items.as_slice(),
            place: 0,
        }
    }

    /// Takes the next part where it is a number.
    pub fn take_unsigned(&mut self) -> Result<u64, TakeFault>
        ensures number { result ≡ first_number self.old.left }
        ensures ok { OnOk result (self.new ≡ past_first self.old) }
        ensures err { OnErr result (self.new ≡ self.old) }
    {
        match self.items.get(self.place) {
            None => Err(TakeFault::End),
            Some(Tagged::Bytes(_)) => Err(TakeFault::WrongKind(TaggedKind::Bytes)),
            Some(Tagged::Number(n)) => {
                self.place += 1;
                Ok(*n)
            }
        }
    }

    /// Takes the next part where it is a number, as one that has a sign.
    pub fn take_signed(&mut self) -> Result<i64, TakeFault>
        ensures number { result ≡ first_signed self.old.left }
        ensures ok { OnOk result (self.new ≡ past_first self.old) }
        ensures err { OnErr result (self.new ≡ self.old) }
    {
        match self.take_unsigned() {
            Ok(n) => Ok(n.cast_signed()),
            Err(fault) => Err(fault),
        }
    }

    /// Takes the next part where it is a byte string.
    pub fn take_bytes(&mut self) -> Result<&'a [u8], TakeFault>
        ensures bytes { Gives result self.old.left }
        ensures ok { OnOk result (self.new ≡ past_first self.old) }
        ensures err { OnErr result (self.new ≡ self.old) }
    {
        match self.items.get(self.place) {
            None => Err(TakeFault::End),
            Some(Tagged::Number(_)) => Err(TakeFault::WrongKind(TaggedKind::Number)),
            Some(Tagged::Bytes(bytes)) => {
                self.place += 1;
                Ok(bytes.as_slice())
            }
        }
    }

    /// How many parts were taken.
    pub fn place(&self) -> u64
        ensures taken { result ≡ length self.now.taken }
    {
        self.place as u64
    }

    /// How many parts are left.
    pub fn left(&self) -> u64
        ensures left { result ≡ length self.now.left }
    {
        (self.items.len() - self.place) as u64
    }
}
