//! The bytes at a place of a file, or its end.

ghost use Rattle.std.specs.Prelude.{◌≡◌, length};
ghost use Rattle.rdb_prims.specs.Reading as spec;
ghost use Rattle.rdb_prims.specs.Reading.{Finds};

use crate::rdb_fault::RdbFault;
use core_types::RdbCause;

/// A cause at a place.
pub(crate) fn fault_at(at: u64, why: RdbCause) -> RdbFault
    ensures { result ≡ spec.fault_at at why }
{
    RdbFault {
        offset: at,
        cause: why,
    }
}

// The fault of a file that ends where a byte is needed.
fn truncated(bytes: &[u8]) -> RdbFault
    ensures { result ≡ spec.truncated bytes.now }
{
    RdbFault {
        offset: bytes.len() as u64,
        cause: RdbCause::Truncated,
    }
}

/// The byte at a place, and the place behind it.
pub(crate) fn byte_at(bytes: &[u8], at: u64) -> Result<(u8, u64), RdbFault>
    ensures { Finds (λ found. found) result (spec.byte_at bytes.now at) }
{
    if at >= bytes.len() as u64 {
        return Err(truncated(bytes));
    }
    Ok((bytes[at as usize], at + 1))
}

/// Some bytes from a place on, and the place behind them.
pub(crate) fn bytes_at(bytes: &[u8], at: u64, count: u64) -> Result<(&[u8], u64), RdbFault>
    ensures { Finds (λ found. (found.0.now, found.1)) result (spec.bytes_at bytes.now at count) }
{
    let length = bytes.len() as u64;
    if at > length || count > length - at {
        return Err(truncated(bytes));
    }
    let start = at as usize;
    let end = start + count as usize;
    Ok((&bytes[start..end], at + count))
}
