//! What holds of lengths, strings and checksums: laws over the definitions, by functions that do
//! nothing.

ghost use Rattle.std.specs.Prelude.{◌≡◌, ◌<◌, ◌≤◌, ◌^◌, ◌+◌, ◌++◌, ◌⊎◌, ℕ, List, length};
ghost use Rattle.rdb_prims.specs.declared.rdb_fault.RdbFault.{RdbFault};
ghost use Rattle.rdb_prims.specs.Length.{SpellsLength, length_text};
ghost use Rattle.rdb_prims.specs.Text.{string_text, longest};
ghost use Rattle.rdb_prims.specs.Places.{AreBytes, HasLength, HasString};
ghost use Rattle.rdb_prims.specs.Faults.{LengthFault, StringFault};
ghost use Rattle.rdb_prims.specs.Checksum.{checksum, checksum_after};

/// At each place of bytes stands one length, or one fault says why none does, and never both.
pub fn one_length()
    ensures either { (bytes : List ℕ) (at : ℕ) → AreBytes bytes
        → ((n : ℕ) × (next : ℕ) × HasLength bytes at n next)
        ⊎ ((fault : RdbFault) × LengthFault bytes at fault) }
    ensures length { (bytes : List ℕ) (at n other next place : ℕ) → HasLength bytes at n next
        → HasLength bytes at other place → (n ≡ other) × (next ≡ place) }
    ensures fault { (bytes : List ℕ) (at : ℕ) (fault other : RdbFault) → LengthFault bytes at fault
        → LengthFault bytes at other → fault ≡ other }
    ensures apart { (bytes : List ℕ) (at n next : ℕ) (fault : RdbFault) → HasLength bytes at n next
        → ¬ LengthFault bytes at fault }
{}

/// At each place of bytes stands one string, or one fault says why none does, and never both.
pub fn one_string()
    ensures either { (bytes : List ℕ) (at : ℕ) → AreBytes bytes
        → ((text : List ℕ) × (next : ℕ) × HasString bytes at text next)
        ⊎ ((fault : RdbFault) × StringFault bytes at fault) }
    ensures string { (bytes : List ℕ) (at : ℕ) (text other : List ℕ) (next place : ℕ)
        → HasString bytes at text next → HasString bytes at other place
        → (text ≡ other) × (next ≡ place) }
    ensures fault { (bytes : List ℕ) (at : ℕ) (fault other : RdbFault) → StringFault bytes at fault
        → StringFault bytes at other → fault ≡ other }
    ensures apart { (bytes : List ℕ) (at : ℕ) (text : List ℕ) (next : ℕ) (fault : RdbFault)
        → HasString bytes at text next → ¬ StringFault bytes at fault }
{}

/// What `put_len` writes is read back, whatever stands before and behind it, and no form of the
/// length is shorter.
pub fn lengths_read_back()
    ensures written { (front more : List ℕ) (n : ℕ) → n < 2 ^ 64
        → HasLength (front ++ (length_text n ++ more)) (length front) n
        (length front + length (length_text n)) }
    ensures shortest { (bytes : List ℕ) (n : ℕ) → SpellsLength bytes n
        → length (length_text n) ≤ length bytes }
{}

/// What `put_string` writes of a string that is not too long is read back, whatever stands before
/// and behind it.
pub fn strings_read_back()
    ensures written { (front more text : List ℕ) → length text ≤ longest
        → HasString (front ++ (string_text text ++ more)) (length front) text
        (length front + length (string_text text)) }
{}

/// The checksum of bytes in pieces is that of the whole.
pub fn checksum_in_pieces()
    ensures pieces { (sum : ℕ) (front more : List ℕ)
        → checksum_after sum (front ++ more) ≡ checksum_after (checksum_after sum front) more }
    ensures whole { (front more : List ℕ)
        → checksum (front ++ more) ≡ checksum_after (checksum front) more }
{}
