//! Strings: a length and their bytes, or a small integer whose decimal they are.

ghost use Rattle.std.specs.Prelude.{◌≡◌, ◌++◌, IfOk, OnOk, OnErr, Ok, Err};
ghost use Rattle.std.specs.Int.{w8, w16, w32};
ghost use Rattle.std.specs.Fmt.{signed_decimal};
ghost use Rattle.rdb_prims.specs.declared.rdb_fault.RdbFault.{RdbFault};
ghost use Rattle.rdb_prims.specs.Text.{string_text};
ghost use Rattle.rdb_prims.specs.Places.{HasString};
ghost use Rattle.rdb_prims.specs.Faults.{StringFault};
ghost use Rattle.rdb_prims.specs.Reading.{Gives, integer_at, plain_at, string_at};

use crate::length::{put_len, read_len};
use crate::place::{byte_at, bytes_at, fault_at};
use crate::rdb_fault::RdbStop;
use byte_text::i64_text;
use core_types::{Blob, NoMemory, RdbCause};
use std::alloc::Global;

// The longest string that is read: 512 MiB.
const LONGEST: u64 = 536_870_912;

/// Appends a string: its length, in the shortest form, and its bytes. An `Err` leaves the buffer as
/// it was.
pub fn put_string(out: &mut Blob, text: &[u8]) -> Result<(), NoMemory>
    ensures ok { OnOk result (out.new ≡ out.old ++ string_text text.now) }
    ensures err { OnErr result (out.new ≡ out.old) }
{
    let length = out.len();
    put_len(out, text.len() as u64)?;
    let written = out.push_slice(text);
    if written.is_err() {
        out.truncate(length);
    }
    written
}

/// Reads the string at a place, and gives a copy of it with the place behind it. A place may be
/// any, also behind the end.
///
/// Where no string stands there, the fault is `Truncated` at the file's length, where a byte is
/// missing; `BadLength` at the place, where no string begins with its byte or the string is whole
/// and longer than 536,870,912 bytes; or `Compressed` at the place. Memory can run out only for a
/// string that is whole.
pub fn read_string(alloc: Global, bytes: &[u8], at: u64) -> Result<(Blob, u64), RdbStop>
    ensures string { IfOk result (λ found. HasString bytes.now at found.0 found.1) }
    ensures fault { (fault : RdbFault) → result ≡ Err (RdbStop.Refused fault)
        → StringFault bytes.now at fault }
    ensures exact { Gives (λ found. found) result (string_at bytes.now at) }
{
    string_of(alloc, bytes, at)
}

// Reads the string at a place.
#[tactic(auto, unfolding(crate::specs::Reading::string_at))]
fn string_of(alloc: Global, bytes: &[u8], at: u64) -> Result<(Blob, u64), RdbStop>
    ensures { Gives (λ found. found) result (string_at bytes.now at) }
{
    let (first, next) = byte_at(bytes, at)?;
    match first {
        0xC0 => integer_8(alloc, bytes, next),
        0xC1 => integer_16(alloc, bytes, next),
        0xC2 => integer_32(alloc, bytes, next),
        0xC3 => Err(RdbStop::Refused(fault_at(at, RdbCause::Compressed))),
        _ => plain(alloc, bytes, at),
    }
}

// Reads a length and as many bytes.
#[tactic(auto, unfolding(crate::specs::Reading::plain_at))]
fn plain(alloc: Global, bytes: &[u8], at: u64) -> Result<(Blob, u64), RdbStop>
    ensures { Gives (λ found. found) result (plain_at bytes.now at) }
{
    let (size, next) = read_len(bytes, at)?;
    let (text, next) = bytes_at(bytes, next, size)?;
    if size > LONGEST {
        return Err(RdbStop::Refused(fault_at(at, RdbCause::BadLength)));
    }
    Ok((Blob::from_slice(alloc, text)?, next))
}

// The decimal of an integer of one byte.
#[tactic(auto, unfolding(crate::specs::Reading::integer_at))]
fn integer_8(alloc: Global, bytes: &[u8], at: u64) -> Result<(Blob, u64), RdbStop>
    ensures { Gives (λ found. found) result (integer_at w8 bytes.now at) }
{
    let (one, next) = bytes_at(bytes, at, 1)?;
    let n = i8::from_le_bytes([one[0]]);
    decimal(alloc, i64::from(n), next)
}

// The decimal of an integer of two bytes.
#[tactic(auto, unfolding(crate::specs::Reading::integer_at))]
fn integer_16(alloc: Global, bytes: &[u8], at: u64) -> Result<(Blob, u64), RdbStop>
    ensures { Gives (λ found. found) result (integer_at w16 bytes.now at) }
{
    let (two, next) = bytes_at(bytes, at, 2)?;
    let n = i16::from_le_bytes([two[0], two[1]]);
    decimal(alloc, i64::from(n), next)
}

// The decimal of an integer of four bytes.
#[tactic(auto, unfolding(crate::specs::Reading::integer_at))]
fn integer_32(alloc: Global, bytes: &[u8], at: u64) -> Result<(Blob, u64), RdbStop>
    ensures { Gives (λ found. found) result (integer_at w32 bytes.now at) }
{
    let (four, next) = bytes_at(bytes, at, 4)?;
    let n = i32::from_le_bytes([four[0], four[1], four[2], four[3]]);
    decimal(alloc, i64::from(n), next)
}

// The decimal of a number, and the place behind it.
fn decimal(alloc: Global, n: i64, next: u64) -> Result<(Blob, u64), RdbStop>
    ensures { Gives (λ found. found) result (Ok (signed_decimal n, next)) }
{
    Ok((Blob::from_slice(alloc, i64_text(n).as_slice())?, next))
}
