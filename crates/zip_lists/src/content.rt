//! The item of an entry: an encoding byte, and a string or an integer.

ghost use Rattle.std.specs.Prelude.{◌≡◌, ◌≢◌, ◌≤◌, ◌<◌, ◌⊎◌, ◌∷◌, length, take, drop, slice_index};
ghost use Rattle.std.specs.Prelude.{IfSome, IfNone};
ghost use Rattle.zip_lists.specs.Entry.{Width, width_mark};
ghost use Rattle.zip_lists.specs.inner.Fronts.{IsItemFront, Announces, IsWidthOf};

use crate::number::signed;
use byte_text::{Decimal, i64_text, u64_text};

/// What stands where an encoding byte is due.
#[derive(Debug, Drop)]
pub(crate) enum Item<'a> {
    /// A string, and how many bytes it takes with what announces it.
    Text(&'a [u8], usize),
    /// The decimal of an integer, and how many bytes that takes with its encoding byte.
    Number(Decimal, usize),
    /// A part of an item, or nothing.
    Open,
    /// An encoding byte that no item has.
    Unknown,
}

/// What stands at the front of the bytes, where an encoding byte is due.
pub(crate) fn read_item(bytes: &[u8]) -> Item<'_>
    ensures { IsItemFront bytes.now result }
{
    let Some(mark) = bytes.first().copied() else {
        return Item::Open;
    };
    match mark {
        0x00..=0x3F => take_text(bytes, 1, usize::from(mark)),
        0x40..=0x7F => read_middle(bytes),
        0x80..=0xBF => read_long(bytes),
        0xF1..=0xFD => read_small(bytes, mark),
        _ => read_integer(bytes, mark),
    }
}

// A string whose length has 14 bits, the highest first.
fn read_middle(bytes: &[u8]) -> Item<'_>
    requires some { 0 < length bytes.now }
    requires low { 0x40 ≤ slice_index bytes.now 0 }
    requires high { slice_index bytes.now 0 < 0x80 }
    ensures { IsItemFront bytes.now result }
{
    match *bytes {
        [mark, low, ..] => {
            let size = u16::from_be_bytes([mark - 0x40, low]);
            take_text(bytes, 2, usize::from(size))
        }
        _ => Item::Open,
    }
}

// A string whose length has 32 bits, the highest first.
fn read_long(bytes: &[u8]) -> Item<'_>
    requires some { 0 < length bytes.now }
    requires low { 0x80 ≤ slice_index bytes.now 0 }
    requires high { slice_index bytes.now 0 < 0xC0 }
    ensures { IsItemFront bytes.now result }
{
    match *bytes {
        [_, a, b, c, d, ..] => {
            let size = u32::from_be_bytes([a, b, c, d]);
            take_text(bytes, 5, size as usize)
        }
        _ => Item::Open,
    }
}

// A string of this size behind this many bytes that announce it.
fn take_text(bytes: &[u8], start: usize, size: usize) -> Item<'_>
    requires within { start ≤ length bytes.now }
    requires announced { Announces (take start bytes.now) size }
    ensures { IsItemFront bytes.now result }
{
    let (_, rest) = bytes.split_at(start);
    if rest.len() < size {
        return Item::Open;
    }
    Item::Text(&rest[..size], start + size)
}

// An integer from 0 to 12, which the encoding byte is.
fn read_small(bytes: &[u8], mark: u8) -> Item<'_>
    requires first { bytes.now ≡ mark ∷ drop 1 bytes.now }
    requires low { 0xF1 ≤ mark }
    requires high { mark ≤ 0xFD }
    ensures { IsItemFront bytes.now result }
{
    Item::Number(u64_text(u64::from(mark - 0xF1)), 1)
}

// An integer behind its encoding byte, where there is one of that width.
fn read_integer(bytes: &[u8], mark: u8) -> Item<'_>
    requires first { bytes.now ≡ mark ∷ drop 1 bytes.now }
    requires low { 0xC0 ≤ mark }
    requires other { (mark < 0xF1) ⊎ (0xFD < mark) }
    ensures { IsItemFront bytes.now result }
{
    let Some(size) = integer_size(mark) else {
        return Item::Unknown;
    };
    let (_, rest) = bytes.split_at(1);
    if rest.len() < size {
        return Item::Open;
    }
    Item::Number(i64_text(signed(&rest[..size])), 1 + size)
}

// How many bytes an integer has behind this encoding byte, or `None` where none has it.
fn integer_size(mark: u8) -> Option<usize>
    ensures some { IfSome result (IsWidthOf mark) }
    ensures none { IfNone result ((width : Width) → mark ≢ width_mark width) }
{
    match mark {
        0xC0 => Some(2),
        0xD0 => Some(4),
        0xE0 => Some(8),
        0xF0 => Some(3),
        0xFE => Some(1),
        _ => None,
    }
}
