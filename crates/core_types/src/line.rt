//! One line of printable text, as a status or an error sends it.

ghost use Rattle.std.specs.Prelude.{◌≡◌, List, ℕ, length, map, IfOk, All};
ghost use Rattle.core_types.specs.Printable.{IsPrintable, printable};

use crate::NoMemory;
use std::alloc::Global;
use std::marker::Model;

/// A text of bytes from 0x20 to 0x7E, so that it ends no line of RESP2.
#[derive(Debug, Drop)]
pub struct Line {
    text: Vec<u8>,
}

impl Model for Line {
    ghost Value = { List ℕ };

    ghost view = { λ l. l.text.items };

    ghost invariant = { λ l. All IsPrintable l.text.items };
}

impl Line {
    /// The text, with `?` in the place of each byte outside 0x20 to 0x7E.
    pub fn from_text(alloc: Global, text: &[u8]) -> Result<Line, NoMemory>
        ensures text { IfOk result (λ line. line ≡ map printable text.now) }
    {
        Ok(Line {
            text: printable_text(alloc, text)?,
        })
    }

    /// A second line of the same text.
    pub fn copy(&self, alloc: Global) -> Result<Line, NoMemory>
        ensures same { IfOk result (λ line. line ≡ self.now) }
    {
        Ok(Line {
            text: Vec::from_slice(alloc, &self.text)?,
        })
    }

    /// The bytes of the text.
    pub fn as_slice(&self) -> &[u8]
        ensures bytes { result.now ≡ self.now }
        ensures printable { All IsPrintable self.now }
    {
        &self.text
    }
}

// The text with `?` for each byte that is not printable.
fn printable_text(alloc: Global, text: &[u8]) -> Result<Vec<u8>, NoMemory>
    ensures text { IfOk result (λ v. v.items ≡ map printable text.now) }
    ensures printable { IfOk result (λ v. All IsPrintable v.items) }
{
    Ok(
        text.iter()
            .map(|byte| printable_byte(*byte))
            .collect(alloc)?,
    )
}

fn printable_byte(byte: u8) -> u8
    ensures { result ≡ printable byte }
{
    if byte < 0x20 || byte > 0x7E {
        b'?'
    } else {
        byte
    }
}
