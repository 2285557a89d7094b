//! The items of a ziplist.

ghost use Rattle.std.specs.Prelude.{◌≡◌, ℕ, IfOk, Err};
ghost use Rattle.zip_lists.specs.Ziplist.{IsZiplist};
ghost use Rattle.zip_lists.specs.BadPlace.{IsFirstBad};
ghost use Rattle.zip_lists.specs.declared.stop.ZipStop.TheVariants as stops;

use crate::header::judge_header;
use crate::stop::ZipStop;
use crate::walk::{Step, Walk};
use sequences::Args;
use std::alloc::Global;

/// The items of a ziplist of RDB version 9, where the bytes are one: a string as it stands, an
/// integer as its decimal. Bytes that are none have a first bad place, which is answered.
///
/// What it costs is linear in the bytes. Memory is taken for an item only once its bytes are known
/// to be there.
pub fn items(alloc: Global, bytes: &[u8]) -> Result<Args, ZipStop>
    ensures ziplist { IfOk result (λ items. IsZiplist bytes.now items) }
    ensures first_bad { (place : ℕ) → result ≡ Err (stops.BadZip place)
        → IsFirstBad bytes.now place }
{
    if let Some(place) = judge_header(bytes) {
        return Err(ZipStop::BadZip(place as u64));
    }
    let mut walk = Walk::new(alloc, bytes);
    loop {
        match walk.step(bytes)? {
            Step::Onward => {}
            Step::End => break,
            Step::Bad(place) => return Err(ZipStop::BadZip(place as u64)),
        }
    }
    match walk.judge(bytes) {
        Some(place) => Err(ZipStop::BadZip(place as u64)),
        None => Ok(walk.into_items()),
    }
}
