//! Removes the keys that are due.

ghost use Rattle.std.specs.Prelude.{◌≡◌, IfOk, OnOk};
ghost use Rattle.host_core.specs.Expiry.{expired_at};

use crate::NoValue;
use core_types::{Effects, NoMemory};
use key_cmds::expire_first;
use key_store::KeyStore;
use std::alloc::Global;

// Removes the keys that are due at a moment, one after the other, and gives their removals. Where
// none is due it costs no more than to see that. On an `Err` some may be removed.
pub(crate) fn expire(
    alloc: Global,
    keys: &mut KeyStore<NoValue>,
    moment: u64,
) -> Result<Effects, NoMemory>
    ensures keys { OnOk result (keys.new ≡ (expired_at moment keys.old).keys) }
    ensures effects { IfOk result
        (λ effects. effects ≡ (expired_at moment keys.old).effects) }
{
    let mut effects = Effects::new(alloc);
    let mut left = Vec::new(alloc);
    for _ in 0..keys.len() {
        let Some(expired) = expire_first(alloc, keys, moment, &mut left)? else {
            return Ok(effects);
        };
        effects.push(expired.effect)?;
    }
    Ok(effects)
}
