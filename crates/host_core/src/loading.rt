//! Puts in keys that were read from elsewhere.

ghost use Rattle.std.specs.Prelude.{◌≡◌, ◌≢◌, Some, OnOk, OnErr};
ghost use Rattle.core_types.specs.Keys.{with_entry, without};

use crate::NoValue;
use core_types::{Blob, NoMemory, Value};
use key_store::KeyStore;
use std::alloc::Global;

// Gives a key this value and this deadline, which is not 0. On an `Err` the key may be gone.
pub(crate) fn put(
    alloc: Global,
    keys: &mut KeyStore<NoValue>,
    key: Blob,
    value: Value<NoValue>,
    deadline: Option<u64>,
) -> Result<(), NoMemory>
    requires positive { deadline ≢ Some 0 }
    ensures ok { OnOk result (keys.new
        ≡ with_entry keys.old key (record { value = value; deadline = deadline })) }
    ensures others { OnErr result (without keys.new key ≡ without keys.old key) }
{
    let name = key.copy(alloc)?;
    if let Err(_) = keys.put(key, value) {
        return Err(NoMemory);
    }
    if let Err(refused) = keys.set_deadline(name.as_slice(), deadline) {
        keys.take(name.as_slice());
        return Err(refused);
    }
    Ok(())
}
