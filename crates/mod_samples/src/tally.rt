//! How many values a module has made and freed.

ghost use Rattle.std.specs.Prelude.{◌≡◌, ◌+◌, ◌-◌, ◌^◌, ◌<◌, ◌≤◌, IfErr, OnOk, OnErr};

use core_types::Stop;

/// How many values a module has made and freed.
#[derive(Drop)]
pub(crate) struct Tally {
    pub made: u64,
    pub freed: u64,
    ghost counted: { freed ≤ made },
}

impl Tally {
    // No values.
    pub(crate) fn new() -> Tally
        ensures made { result.made ≡ 0 }
        ensures freed { result.freed ≡ 0 }
    {
        Tally { made: 0, freed: 0 }
    }

    // One more was made.
    pub(crate) fn make(&mut self) -> Result<(), Stop>
        ensures ok { OnOk result (self.new.made ≡ self.old.made + 1) }
        ensures err { IfErr result (λ stop. stop ≡ Stop.NumbersSpent) }
        ensures spent { OnErr result (self.old.made ≡ 2 ^ 64 - 1) }
        ensures same { OnErr result (self.new.made ≡ self.old.made) }
        ensures freed { self.new.freed ≡ self.old.freed }
    {
        if self.made == u64::MAX {
            return Err(Stop::NumbersSpent);
        }
        self.made += 1;
        Ok(())
    }

    // One more was freed.
    pub(crate) fn free(&mut self)
        requires { self.old.freed < self.old.made }
        ensures freed { self.new.freed ≡ self.old.freed + 1 }
        ensures made { self.new.made ≡ self.old.made }
    {
        let made = self.made;
        prove!(self.freed < made);
        self.freed += 1;
    }
}
