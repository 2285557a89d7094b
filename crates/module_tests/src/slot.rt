//! What was put under a key.

ghost use Rattle.std.specs.Prelude.{◌≡◌, true, false};
ghost use Rattle.std.specs.Borrow.{sem, Lends};
ghost use Rattle.module_tests.specs.contracts.slot.Slot.{the_row};

use core_types::Blob;
use module_laws::Viewed;
use std::marker::Model;
use type_ids::TypeName;

/// A key, the name of the type that was put there, the value, and whether it is still there.
pub struct Slot<V: Viewed> {
    key: Blob,
    name: TypeName,
    value: V,
    live: bool,
}

impl<V: Viewed> Model for Slot<V> {
    ghost use Rattle.module_tests.specs.Shelf.{Kept};

    ghost Value = { Kept };

    ghost view = { λ slot. record {
      key = slot.key;
      name = slot.name;
      native = V.native slot.value;
      live =
          slot.live;
    } };
}

impl<V: Viewed> Slot<V> {
    pub fn new(key: Blob, name: TypeName, value: V) -> Slot<V>
        ensures { result ≡ record { key = key; name = name; native = V.native value; live = true } }
    {
        Slot {
            key,
            name,
            value,
            live: true,
        }
    }

    pub fn key(&self) -> &[u8]
        ensures { result.now ≡ self.now.key }
    {
        self.key.as_slice()
    }

    pub fn value(&self) -> &V
        ensures { V.native result.now ≡ self.now.native }
    {
        &self.value
    }

    pub fn is_live(&self) -> bool
        ensures { result ≡ self.now.live }
    {
        self.live
    }

    /// The value, to be changed in its place.
    pub fn value_mut(&mut self) -> &mut V
        ensures* writes_back { sem 𝓛 (Lends (the_row V.row V.Viewed) V.row self.entry result
            (λ left. record self.old { native = V.native left })) }
        ensures value { V.native result.now ≡ self.old.native }
    {
        &mut self.value
    }

    /// Marks it as gone.
    pub fn remove(&mut self)
        ensures { self.new ≡ record self.old { live = false } }
    {
        self.live = false;
    }

    pub fn into_value(self) -> V
        ensures { V.native result ≡ self.native }
    {
        let Slot {
            key: _,
            name: _,
            value,
            live: _,
        } = self;
        value
    }
}
