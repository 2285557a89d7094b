//! A value with a serial.

ghost use Rattle.std.specs.Prelude.{◌≡◌};
ghost use Rattle.std.specs.Borrow.{sem, Lends};
ghost use Rattle.value_box.specs.contracts.boxed.Boxed.{the_row};

use std::marker::Model;

/// A value, and a serial that no other box of its vault has. It must be spent: `Vault::retire`
/// takes it back. The name of its type is that of the value, and stands nowhere else.
pub struct Boxed<V> {
    serial: u64,
    value: V,
}

impl<V> Model for Boxed<V> {
    ghost use Rattle.value_box.specs.Boxes.{Labelled};

    ghost Value = { Labelled V };

    ghost view = { λ b. record { serial = b.serial; value = b.value } };
}

impl<V> Boxed<V> {
    pub(crate) fn new(serial: u64, value: V) -> Boxed<V>
        ensures { result ≡ record { serial = serial; value = value } }
    {
        Boxed { serial, value }
    }

    pub(crate) fn into_value(self) -> V
        ensures { result ≡ self.value }
    {
        let Boxed { serial: _, value } = self;
        value
    }

    /// Its serial.
    pub fn serial(&self) -> u64
        ensures serial { result ≡ self.now.serial }
    {
        self.serial
    }

    /// Its value.
    pub fn value(&self) -> &V
        ensures value { result.now ≡ self.now.value }
    {
        &self.value
    }

    /// Its value, to be changed. The serial stays.
    pub fn value_mut(&mut self) -> &mut V
        ensures* writes_back { sem 𝓛 (Lends (the_row V.row) V.row self.entry result
            (λ left. record self.old { value = left })) }
        ensures value { result.now ≡ self.old.value }
    {
        &mut self.value
    }
}
