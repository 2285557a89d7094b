//! The name of a module data type.

ghost use Rattle.std.specs.Prelude.{◌≡◌, ◌==◌, position, IfOk, IfErr};
ghost use Rattle.type_ids.specs.Letter.{letter_number};
ghost use Rattle.type_ids.specs.Name.{HasFault, IsTypeName};

use crate::NameFault;
use crate::letter::{LETTERS, number_of};
use std::marker::Model;

/// A name of nine letters that is not the reserved one. The letters are `A` to `Z`, `a` to `z`, `0`
/// to `9`, `-` and `_`.
#[derive(Clone, Copy, Debug, PartialEq, Eq)]
pub struct TypeName {
    text: [u8; 9],
}

impl Model for TypeName {
    ghost use Rattle.std.specs.Prelude.{List, ℕ};

    ghost Value = { List ℕ };

    ghost use Rattle.type_ids.specs.Name.{IsTypeName};

    ghost view = { λ n. n.text };

    ghost invariant = { λ n. IsTypeName n.text };

    ghost inverse = { λ text. record { text = text } };
}

impl TypeName {
    /// The name that these bytes are. `BadLength` where they are not nine, else `BadLetter` with
    /// the place of the first that is no letter, else `Reserved` where they are `AAAAAAAAA`.
    pub fn new(text: &[u8]) -> Result<TypeName, NameFault>
        ensures ok { IfOk result (λ name. name ≡ text.now) }
        ensures named { IfOk result (λ _. IsTypeName text.now) }
        ensures err { IfErr result (λ fault. HasFault text.now fault) }
    {
        let Ok(name) = <[u8; 9]>::try_from(text) else {
            return Err(NameFault::BadLength);
        };
        if let Some(place) = bad_place(&name) {
            return Err(NameFault::BadLetter(place as u8));
        }
        if name == *b"AAAAAAAAA" {
            return Err(NameFault::Reserved);
        }
        Ok(TypeName { text: name })
    }

    /// The nine bytes of the name.
    pub fn text(&self) -> &[u8]
        ensures text { result.now ≡ self.now }
        ensures named { IsTypeName self.now }
    {
        &self.text
    }
}

// The place of the first byte that is no letter.
fn bad_place(text: &[u8]) -> Option<usize>
    ensures { result ≡ position (λ byte. letter_number byte == 64) text.now }
{
    text.iter().position(|byte| number_of(*byte) == LETTERS)
}
