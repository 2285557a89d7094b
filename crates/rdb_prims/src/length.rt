//! Lengths, in one, two, five or nine bytes.

ghost use Rattle.std.specs.Prelude.{◌≡◌, ◌++◌, IfOk, IfErr, OnOk, OnErr};
ghost use Rattle.rdb_prims.specs.Length.{length_text};
ghost use Rattle.rdb_prims.specs.Places.{HasLength};
ghost use Rattle.rdb_prims.specs.Faults.{LengthFault};
ghost use Rattle.rdb_prims.specs.Reading.{length_at};

use crate::place::{byte_at, bytes_at, fault_at};
use crate::rdb_fault::RdbFault;
use core_types::{Blob, NoMemory, RdbCause};

/// Appends a length, in the shortest form. An `Err` leaves the buffer as it was.
pub fn put_len(out: &mut Blob, n: u64) -> Result<(), NoMemory>
    ensures ok { OnOk result (out.new ≡ out.old ++ length_text n) }
    ensures err { OnErr result (out.new ≡ out.old) }
{
    if n < 1 << 6 {
        return out.push(n as u8);
    }
    if n < 1 << 14 {
        return out.push_slice(&[0x40 + (n / 256) as u8, (n % 256) as u8]);
    }
    if n < 1 << 32 {
        let [a, b, c, d] = (n as u32).to_be_bytes();
        return out.push_slice(&[0x80, a, b, c, d]);
    }
    let [a, b, c, d, e, f, g, h] = n.to_be_bytes();
    out.push_slice(&[0x81, a, b, c, d, e, f, g, h])
}

/// Reads the length at a place, and gives it with the place behind it. A place may be any, also
/// behind the end. Takes no memory.
///
/// Where no length stands there, the fault is `Truncated` at the file's length, where a byte is
/// missing, or `BadLength` at the place, where no length begins with its byte.
pub fn read_len(bytes: &[u8], at: u64) -> Result<(u64, u64), RdbFault>
    ensures length { IfOk result (λ found. HasLength bytes.now at found.0 found.1) }
    ensures fault { IfErr result (LengthFault bytes.now at) }
    ensures exact { result ≡ length_at bytes.now at }
{
    length_of(bytes, at)
}

// Reads the length at a place.
#[tactic(auto, unfolding(crate::specs::Reading::length_at))]
fn length_of(bytes: &[u8], at: u64) -> Result<(u64, u64), RdbFault>
    ensures { result ≡ length_at bytes.now at }
{
    let (first, next) = byte_at(bytes, at)?;
    match first {
        0x00..=0x3F => Ok((u64::from(first), next)),
        0x40..=0x7F => {
            let (low, next) = byte_at(bytes, next)?;
            Ok((u64::from(first - 0x40) * 256 + u64::from(low), next))
        }
        0x80 => {
            let (four, next) = bytes_at(bytes, next, 4)?;
            let n = u32::from_be_bytes([four[0], four[1], four[2], four[3]]);
            Ok((u64::from(n), next))
        }
        0x81 => {
            let (eight, next) = bytes_at(bytes, next, 8)?;
            let n = u64::from_be_bytes([
                eight[0], eight[1], eight[2], eight[3], eight[4], eight[5], eight[6], eight[7],
            ]);
            Ok((n, next))
        }
        _ => Err(fault_at(at, RdbCause::BadLength)),
    }
}
