//! The length that an entry tells of the one before it.

ghost use Rattle.std.specs.Prelude.{◌≡◌, slice_get, Some};
ghost use Rattle.zip_lists.specs.inner.Fronts.{IsLengthFront};

const END: u8 = 0xFF;

const FOUR: u8 = 0xFE;

/// What stands where an entry or the end is due.
#[derive(Clone, Copy, Debug)]
pub(crate) enum Length {
    /// The end mark.
    End,
    /// A part of a length, or nothing.
    Open,
    /// A length, and how many bytes it takes.
    Whole(usize, usize),
}

/// What stands at the front of the bytes, where an entry or the end is due.
pub(crate) fn read_length(bytes: &[u8]) -> Length
    ensures { IsLengthFront bytes.now result }
{
    match bytes.first().copied() {
        None => Length::Open,
        Some(END) => Length::End,
        Some(FOUR) => read_four(bytes),
        Some(size) => Length::Whole(usize::from(size), 1),
    }
}

// A length in four bytes.
fn read_four(bytes: &[u8]) -> Length
    requires { slice_get bytes.now 0 ≡ Some 254 }
    ensures { IsLengthFront bytes.now result }
{
    match *bytes {
        [_, a, b, c, d, ..] => Length::Whole(u32::from_le_bytes([a, b, c, d]) as usize, 5),
        _ => Length::Open,
    }
}
