//! The ids that a snapshot stores for values of module data types.

ghost use Rattle.std.specs.Prelude.{◌≡◌, ◌<◌, ◌≤◌, ◌↔◌, ◌^◌, ℕ, slice_index, IfOk, IfErr, IsErr};
ghost use Rattle.type_ids.specs.Id.{IsIdOf, id_number, letters_value};
ghost use Rattle.type_ids.specs.Letter.{IsLetter};
ghost use Rattle.type_ids.specs.Name.{IsTypeName};

use crate::letter::{LETTERS, letter_of, number_of};
use crate::{NameFault, TypeName};

// How many versions a name has, which is what the lowest ten bits hold.
const VERSIONS: u64 = 1024;

/// The id of a name and an encoding version of at most 1023: the numbers of the letters in six bits
/// each, the first in the highest, then the version in ten bits.
pub fn id_of(name: &TypeName, encver: u16) -> u64
    requires { encver ≤ 1023 }
    ensures number { result ≡ id_number name.now encver }
    ensures id { IsIdOf name.now encver result }
{
    number_of_letters(name.text()) * VERSIONS + u64::from(encver)
}

/// The name and the encoding version that an id packs, or `Reserved` exactly where its upper 54
/// bits are 0.
pub fn split(id: u64) -> Result<(TypeName, u16), NameFault>
    ensures ok { IfOk result (λ parts. IsIdOf parts.0 parts.1 id) }
    ensures err { IfErr result (λ fault. fault ≡ NameFault.Reserved) }
    ensures reserved { IsErr result ↔ (id < 1024) }
{
    let name = TypeName::new(&letters_of(id / VERSIONS))?;
    Ok((name, (id % VERSIONS) as u16))
}

// The number that nine letters are in base 64.
#[tactic(auto, using(crate::proofs::Ids::one_more))]
fn number_of_letters(text: &[u8]) -> u64
    requires { IsTypeName text.now }
    ensures { result ≡ letters_value text.now }
{
    let mut number = 0;
    for letter in text {
        number = number * u64::from(LETTERS) + u64::from(number_of(*letter));
    }
    number
}

// The nine letters that a number is in base 64.
fn letters_of(number: u64) -> [u8; 9]
    requires { number < 64 ^ 9 }
    ensures letters { (k : ℕ) → k < 9 → IsLetter (slice_index result k) }
    ensures value { letters_value result ≡ number }
{
    let mut text = [0; 9];
    let mut rest = number;
    for place in (0..9).rev() {
        text[place] = letter_of((rest % u64::from(LETTERS)) as u8);
        rest /= u64::from(LETTERS);
    }
    text
}
