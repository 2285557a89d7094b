//! Gathers the parts of a value that is saved.

ghost use Rattle.std.specs.Prelude.{◌≡◌, ◌++◌, [], ◌∷◌, OnOk, OnErr};
ghost use Rattle.core_types.specs.declared.tagged.Tagged.TheVariants as tagged;
ghost use Rattle.tagged_io.specs.Putting.{unsigned_part, signed_part, bytes_part};

use core_types::{Blob, Items, NoMemory, Tagged};
use std::alloc::Global;
use std::marker::Model;

/// The parts that were put, in order. An `Err` leaves them as they were.
#[derive(Debug, Drop)]
pub struct TaggedOut {
    alloc: Global,
    items: Items,
}

impl Model for TaggedOut {
    ghost use Rattle.std.specs.Prelude.{List};
    ghost use Rattle.core_types.specs.declared.tagged.Tagged.{Tagged};

    ghost Value = { List Tagged };

    ghost view = { λ out. out.items };
}

impl TaggedOut {
    /// No parts. Takes no memory.
    pub fn new(alloc: Global) -> TaggedOut
        ensures empty { result ≡ [] }
    {
        TaggedOut {
            alloc,
            items: Items::new(alloc),
        }
    }

    /// Puts a number.
    pub fn put_unsigned(&mut self, n: u64) -> Result<(), NoMemory>
        ensures ok { OnOk result (self.new ≡ self.old ++ unsigned_part n ∷ []) }
        ensures err { OnErr result (self.new ≡ self.old) }
    {
        self.items.push(Tagged::Number(n))
    }

    /// Puts a number that has a sign, as its two's complement.
    pub fn put_signed(&mut self, n: i64) -> Result<(), NoMemory>
        ensures ok { OnOk result (self.new ≡ self.old ++ signed_part n ∷ []) }
        ensures err { OnErr result (self.new ≡ self.old) }
    {
        self.items.push(Tagged::Number(n.cast_unsigned()))
    }

    /// Puts a copy of the bytes.
    pub fn put_bytes(&mut self, bytes: &[u8]) -> Result<(), NoMemory>
        ensures ok { OnOk result (self.new ≡ self.old ++ bytes_part bytes.now ∷ []) }
        ensures err { OnErr result (self.new ≡ self.old) }
    {
        let copied = Blob::from_slice(self.alloc, bytes)?;
        self.items.push(Tagged::Bytes(copied))
    }

    /// All that was put. Takes no memory.
    pub fn finish(self) -> Items
        ensures items { result ≡ self }
    {
        let TaggedOut { alloc: _, items } = self;
        items
    }
}
