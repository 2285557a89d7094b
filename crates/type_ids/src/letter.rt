//! The 64 letters of type names, and their numbers.

ghost use Rattle.std.specs.Prelude.{◌≡◌, ◌<◌};
ghost use Rattle.type_ids.specs.Letter.{letter_at, letter_number};

// How many letters there are, and the number of every byte that is no letter.
pub(crate) const LETTERS: u8 = 64;

// The number of a letter, and 64 for any other byte.
pub(crate) fn number_of(byte: u8) -> u8
    ensures { result ≡ letter_number byte }
{
    match byte {
        b'A'..=b'Z' => byte - b'A',
        b'a'..=b'z' => byte - b'a' + 26,
        b'0'..=b'9' => byte - b'0' + 52,
        b'-' => 62,
        b'_' => 63,
        _ => LETTERS,
    }
}

// The letter with this number.
pub(crate) fn letter_of(number: u8) -> u8
    requires { number < 64 }
    ensures { result ≡ letter_at number }
{
    match number {
        0..=25 => b'A' + number,
        26..=51 => b'a' + (number - 26),
        52..=61 => b'0' + (number - 52),
        62 => b'-',
        _ => b'_',
    }
}
