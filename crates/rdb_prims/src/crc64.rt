//! The checksum of a file, fed in pieces.

ghost use Rattle.std.specs.Prelude.{◌≡◌, ℕ};
ghost use Rattle.rdb_prims.specs.Checksum.{checksum_after};
ghost use Rattle.rdb_prims.specs.inner.Table.{IsTable};

use crate::table::TABLE;
use std::marker::Model;

/// The checksum of some bytes: a cyclic redundancy check of 64 bits, as RDB version 9 has it. No
/// call takes memory.
#[derive(Clone, Copy, Debug, PartialEq, Eq)]
pub struct Crc64 {
    sum: u64,
}

impl Model for Crc64 {
    ghost Value = { ℕ };

    ghost view = { λ crc. crc.sum };

    ghost inverse = { λ n. record { sum = n } };
}

impl Crc64 {
    /// The checksum of no bytes.
    pub fn new() -> Crc64
        ensures none { result ≡ 0 }
    {
        Crc64 { sum: 0 }
    }

    /// Takes more bytes.
    pub fn add(&mut self, piece: &[u8])
        ensures bytes { self.new ≡ checksum_after self.old piece.now }
    {
        self.sum = sum_after(&TABLE, self.sum, piece);
    }

    /// The checksum of all bytes so far.
    pub fn value(&self) -> u64
        ensures value { result ≡ self.now }
    {
        self.sum
    }
}

// The checksum after more bytes.
fn sum_after(table: &[u64; 256], sum: u64, piece: &[u8]) -> u64
    requires { IsTable table.now }
    ensures { result ≡ checksum_after sum piece.now }
{
    let mut sum = sum;
    for byte in piece {
        let low = (sum % 256) as u8 ^ *byte;
        sum = (sum >> 8) ^ table[usize::from(low)];
    }
    sum
}
