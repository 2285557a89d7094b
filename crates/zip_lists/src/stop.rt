//! Why bytes gave no items.

ghost use Rattle.std.specs.Prelude.{◌≡◌};
ghost use Rattle.zip_lists.specs.declared.stop.ZipStop.TheVariants as stops;

use sequences::NoMemory;

/// Why bytes gave no items.
#[derive(Clone, Copy, Debug, PartialEq, Eq)]
pub enum ZipStop {
    /// They are no ziplist: their first bad place.
    BadZip(u64),
    /// Memory ran out.
    Memory,
}

impl From<NoMemory> for ZipStop {
    ghost from_gives = { λ _ stop. stop ≡ stops.Memory };

    fn from(_: NoMemory) -> ZipStop {
        ZipStop::Memory
    }
}
