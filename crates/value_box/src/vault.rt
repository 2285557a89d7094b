//! Issues serials.

ghost use Rattle.std.specs.Prelude.{◌≡◌, ◌+◌, ◌-◌, ◌<◌, ◌↔◌, ◌^◌, nat_lt, IfOk, IfErr, OnOk, OnErr, IsOk};
ghost use Rattle.value_box.specs.Boxes.{no_boxes, one_issued, one_retired, live};

use crate::boxed::Boxed;
use std::marker::Model;

/// Issues boxes, and takes them back. Contracts see it as how many it issued and how many it took
/// back.
#[derive(Debug, Drop)]
pub struct Vault {
    issued: u64,
    retired: u64,
}

impl Model for Vault {
    ghost use Rattle.std.specs.Prelude.{◌≤◌};
    ghost use Rattle.value_box.specs.Boxes.{Boxes};

    ghost Value = { Boxes };

    ghost view = { λ v. record { issued = v.issued; retired = v.retired } };

    ghost invariant = { λ v. v.retired ≤ v.issued };
}

impl Vault {
    /// A vault that has issued no box.
    pub fn new() -> Vault
        ensures none { result ≡ no_boxes }
    {
        Vault {
            issued: 0,
            retired: 0,
        }
    }

    /// Puts a value into a box, whose serial is the number of those issued before. The value comes
    /// back where that is 2^64 - 1.
    pub fn issue<V>(&mut self, value: V) -> Result<Boxed<V>, V>
        ensures boxed { IfOk result (λ b. b ≡ record { serial = self.old.issued; value = value }) }
        ensures ok { OnOk result (self.new ≡ one_issued self.old) }
        ensures back { IfErr result (λ back. back ≡ value) }
        ensures err { OnErr result (self.new ≡ self.old) }
        ensures exact { IsOk result ↔ (self.old.issued < 2 ^ 64 - 1) }
    {
        if self.issued == u64::MAX {
            return Err(value);
        }
        let serial = self.issued;
        self.issued += 1;
        Ok(Boxed::new(serial, value))
    }

    /// Takes a box back, and gives its value. It is one that this vault issued.
    pub fn retire<V>(&mut self, b: Boxed<V>) -> V
        requires issued { b.serial < self.old.issued }
        requires live { 0 < live self.old }
        ensures value { result ≡ b.value }
        ensures retired { self.new ≡ one_retired self.old }
    {
        self.retired += 1;
        b.into_value()
    }

    /// How many boxes it has issued, which is the next serial.
    pub fn issued(&self) -> u64
        ensures issued { result ≡ self.now.issued }
    {
        self.issued
    }

    /// How many of them it has not taken back.
    pub fn live(&self) -> u64
        ensures live { result ≡ live self.now }
    {
        self.issued - self.retired
    }
}
