//! What decimals and names are, said of all of them.

ghost use Rattle.std.specs.Prelude.{◌≡◌, ◌^◌, ◌<◌, ◌↔◌, ℕ, ℤ, List, length, FitsSigned, Some};
ghost use Rattle.std.specs.Int.{w64};
ghost use Rattle.std.specs.Fmt.{decimal, signed_decimal};
ghost use Rattle.byte_text.specs.Name.{DifferInCase, same_name, upper_name};
ghost use Rattle.byte_text.specs.Number.{IsShort, AreDigits, AreSignedDigits, i64_of, u64_of};

/// Each number has one decimal, from which it is read, and no other text is read as a number.
pub fn decimals_are_canonical()
    ensures unsigned { (n : ℕ) → n < 2 ^ 64 → u64_of (decimal n) ≡ Some n }
    ensures unsigned_only { (text : List ℕ) (n : ℕ) → u64_of text ≡ Some n → (n < 2 ^ 64)
        × (text ≡ decimal n) }
    ensures signed { (n : ℤ) → FitsSigned w64 n → i64_of (signed_decimal n) ≡ Some n }
    ensures signed_only { (text : List ℕ) (n : ℤ) → i64_of text ≡ Some n
        → FitsSigned w64 n × (text ≡ signed_decimal n) }
{}

/// A decimal has from one to twenty bytes: digits, and a `-` in front of those of a number below
/// zero.
pub fn decimals_are_short()
    ensures unsigned { (n : ℕ) → n < 2 ^ 64 → IsShort (decimal n) }
    ensures digits { (n : ℕ) → n < 2 ^ 64 → AreDigits (decimal n) }
    ensures signed { (n : ℤ) → FitsSigned w64 n → IsShort (signed_decimal n) }
    ensures sign { (n : ℤ) → FitsSigned w64 n → AreSignedDigits (signed_decimal n) }
{}

/// Two names are the same where they have as many bytes, and each byte of the one is that of the
/// other or the other case of the same letter.
pub fn names_by_bytes()
    ensures bytes { (a b : List ℕ) → (upper_name a ≡ upper_name b) ↔ DifferInCase a b }
    ensures again { (a : List ℕ) → upper_name (upper_name a) ≡ upper_name a }
    ensures length { (a : List ℕ) → length (upper_name a) ≡ length a }
{}
