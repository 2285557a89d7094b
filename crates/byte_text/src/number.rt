//! The numbers that canonical decimals write.

ghost use Rattle.std.specs.Prelude.{◌≡◌, ◌≢◌, ◌<◌, ◌≤◌, ◌^◌, ℕ, ℤ, pos, neg_ℤ, FitsSigned, IfSome, IfNone, OnSome, SomeIff};
ghost use Rattle.std.specs.Int.{w64};
ghost use Rattle.std.specs.Fmt.{decimal, signed_decimal};
ghost use Rattle.std.specs.Str.Parse.{AllDigits, digits_value};
ghost use Rattle.byte_text.specs.Number.{i64_of, number_in, u64_of};

// How far the least i64 is from zero.
const LEAST: u64 = 1 << 63;

/// The number whose canonical decimal this text is, or `None` where it is that of no i64: `-` may
/// stand in front of digits that are not `0` alone, `+` and a zero in front of another digit may
/// not.
pub fn read_i64(text: &[u8]) -> Option<i64>
    ensures value { result ≡ i64_of text.now }
    ensures text { IfSome result (λ n. text.now ≡ signed_decimal n) }
    ensures none { IfNone result ((n : ℤ) → FitsSigned w64 n → text.now ≢ signed_decimal n) }
{
    match text {
        [b'-', digits @ ..] => below_zero(read_u64(digits)?),
        _ => i64::try_from(read_u64(text)?).ok(),
    }
}

/// The number whose canonical decimal this text is, or 0 where it is that of no i64.
#[tactic(auto, unfolding(crate::specs::Number::number_in))]
pub fn number_in(text: &[u8]) -> i64
    ensures value { result ≡ number_in text.now }
{
    read_i64(text).unwrap_or(0)
}

// The number this far below zero, where it is below zero and an i64.
fn below_zero(size: u64) -> Option<i64>
    ensures { SomeIff result ((0 < size) × (size ≤ 2 ^ 63)) (neg_ℤ (pos size)) }
{
    if size == 0 || size > LEAST {
        return None;
    }
    Some(-1 - (size - 1) as i64)
}

/// The number whose canonical decimal this text is, or `None` where it is that of no u64: one digit
/// or more, with no zero in front of another digit.
#[tactic(auto, using(crate::proofs::ReadingDigits::decimals))]
pub fn read_u64(text: &[u8]) -> Option<u64>
    ensures value { result ≡ u64_of text.now }
    ensures text { IfSome result (λ n. text.now ≡ decimal n) }
    ensures none { IfNone result ((n : ℕ) → n < 2 ^ 64 → text.now ≢ decimal n) }
{
    if text.is_empty() {
        return None;
    }
    if text[0] == b'0' && text.len() > 1 {
        return None;
    }
    value_of_digits(text)
}

// The number that these digits write, or `None` where a byte is no digit or the number has no 64
// bits.
#[tactic(auto, using(crate::proofs::ReadingDigits::one_more))]
fn value_of_digits(text: &[u8]) -> Option<u64>
    ensures fits { IfSome result (λ n. n < 2 ^ 64) }
    ensures digits { OnSome result (AllDigits 10 text.now) }
    ensures value { IfSome result (λ n. n ≡ digits_value 10 text.now) }
    ensures none { IfNone result (AllDigits 10 text.now → 2 ^ 64 ≤ digits_value 10 text.now) }
{
    let mut number: u64 = 0;
    for byte in text {
        let digit = char::from(*byte).to_digit(10)?;
        number = number.checked_mul(10)?.checked_add(u64::from(digit))?;
    }
    Some(number)
}
