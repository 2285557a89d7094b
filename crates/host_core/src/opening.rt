//! A state of the machine, as plain data.

ghost use Rattle.std.specs.Prelude.{◌≡◌, IfOk};
ghost use Rattle.core_types.specs.Keys.{key_count};
ghost use Rattle.host_core.specs.inner.Saving.{HasCopied};

use crate::NoValue;
use client_book::Clients;
use core_types::{Blob, NoMemory, Value};
use key_store::KeyStore;
use std::alloc::Global;
use std::marker::Model;

// A key and what it has.
#[derive(Debug, Drop)]
pub(crate) struct SavedKey {
    key: Blob,
    value: Value<NoValue>,
    deadline: Option<u64>,
}

/// The keys, the moment and the clients as they were at one moment.
#[derive(Debug, Drop)]
pub struct Opening {
    // In byte order of the keys.
    pub(crate) keys: Vec<SavedKey>,
    pub(crate) moment: u64,
    pub(crate) clients: Clients,
}

impl Model for Opening {
    ghost use Rattle.std.specs.Prelude.{◌≡◌, length};
    ghost use Rattle.core_types.specs.Keys.{key_count};
    ghost use Rattle.host_core.specs.Core.{state_code};
    ghost use Rattle.host_core.specs.State.{State};
    ghost use Rattle.host_core.specs.inner.Saving.{saved_keys};

    ghost Value = { State };

    ghost coded = { state_code };

    ghost view = { λ o. record {
      keys = saved_keys o.keys.items;
      moment = o.moment;
      clients = o.clients;
    } };

    ghost invariant = { λ o. key_count (saved_keys o.keys.items) ≡ length o.keys.items };
}

impl Opening {
    /// The number of keys.
    pub fn keys(&self) -> u64
        ensures count { result ≡ key_count self.now.keys }
    {
        self.keys.len() as u64
    }
}

// The keys in byte order, each with a copy of what it has.
pub(crate) fn copy_keys(alloc: Global, keys: &KeyStore<NoValue>) -> Result<Vec<SavedKey>, NoMemory>
    ensures copied { IfOk result (λ saved. HasCopied saved.items keys.now) }
{
    let mut saved = Vec::new(alloc);
    for (key, value) in keys.iter() {
        saved.push(SavedKey {
            key: Blob::from_slice(alloc, key)?,
            value: copy_value(alloc, value)?,
            deadline: keys.deadline(key),
        })?;
    }
    Ok(saved)
}

fn copy_value(alloc: Global, value: &Value<NoValue>) -> Result<Value<NoValue>, NoMemory>
    ensures { IfOk result (λ copy. copy ≡ value.now) }
{
    Ok(match value {
        Value::Str(text) => Value::Str(text.copy(alloc)?),
        Value::List(items) => Value::List(items.copy(alloc)?),
        Value::Hash(fields) => Value::Hash(fields.copy(alloc)?),
        Value::Native(native) => Value::Native(native.copy()),
    })
}
