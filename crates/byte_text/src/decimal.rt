//! The decimal of a number, in a row of its own.

ghost use Rattle.std.specs.Prelude.{◌≡◌, ◌≤◌, ◌+◌, length, drop};
ghost use Rattle.std.specs.Fmt.{decimal, signed_decimal};

use std::marker::Model;

// The digits of the largest u64, and those of the least i64 with its sign.
const WIDTH: usize = 20;

/// The decimal of a number: at most twenty bytes, kept in place.
#[derive(Debug, Drop)]
pub struct Decimal {
    row: [u8; WIDTH],
    first: usize,
}

impl Model for Decimal {
    ghost use Rattle.std.specs.Prelude.{List, ℕ, ◌≤◌, ◌≡◌, length, drop};

    ghost Value = { List ℕ };

    ghost view = { λ d. drop d.first d.row };

    ghost invariant = { λ d. (d.first ≤ 20) × (length d.row ≡ 20) };
}

impl Decimal {
    /// The bytes of the decimal.
    pub fn as_slice(&self) -> &[u8]
        ensures bytes { result.now ≡ self.now }
        ensures short { length self.now ≤ 20 }
    {
        &self.row[self.first..]
    }
}

/// The decimal of a number: its digits, with no zero in front of another digit.
pub fn u64_text(n: u64) -> Decimal
    ensures text { result ≡ decimal n }
{
    let mut row = [0; WIDTH];
    let first = set_digits(&mut row, n);
    Decimal { row, first }
}

/// The decimal of a number: the digits of its distance from zero, with a `-` in front below zero.
pub fn i64_text(n: i64) -> Decimal
    ensures text { result ≡ signed_decimal n }
{
    let mut row = [0; WIDTH];
    let first = set_signed(&mut row, n);
    Decimal { row, first }
}

// Sets a sign, where there is one, and the digits at the end of the row, and answers where they
// begin.
fn set_signed(row: &mut [u8; WIDTH], n: i64) -> usize
    ensures within { result ≤ WIDTH }
    ensures digits { drop result row.new ≡ signed_decimal n }
{
    let first = set_digits(row, n.unsigned_abs());
    if n >= 0 {
        return first;
    }
    let sign = first - 1;
    row[sign] = b'-';
    sign
}

// Sets the digits at the end of the row, and answers where they begin.
fn set_digits(row: &mut [u8; WIDTH], n: u64) -> usize
    ensures begins { result + length (decimal n) ≡ WIDTH }
    ensures digits { drop result row.new ≡ decimal n }
{
    let mut rest = n;
    let mut first = WIDTH;
    while rest >= 10 {
        first -= 1;
        row[first] = b'0' + (rest % 10) as u8;
        rest /= 10;
    }
    first -= 1;
    row[first] = b'0' + rest as u8;
    first
}
