//! Integers of one to eight bytes.

ghost use Rattle.std.specs.Prelude.{◌≡◌, length};
ghost use Rattle.zip_lists.specs.inner.Fronts.{IsWidth};
ghost use Rattle.zip_lists.specs.Numbers.{signed};

/// The integer that these bytes write, the lowest first, in two's complement.
pub(crate) fn signed(digits: &[u8]) -> i64
    requires { IsWidth (length digits.now) }
    ensures { result ≡ signed digits.now }
{
    match *digits {
        [a] => i64::from(i8::from_le_bytes([a])),
        [a, b] => i64::from(i16::from_le_bytes([a, b])),
        [a, b, c] => i64::from(i32::from_le_bytes([0, a, b, c]) >> 8),
        [a, b, c, d] => i64::from(i32::from_le_bytes([a, b, c, d])),
        [a, b, c, d, e, f, g, h] => i64::from_le_bytes([a, b, c, d, e, f, g, h]),
        _ => unreachable!(),
    }
}
