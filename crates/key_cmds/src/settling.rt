//! Carries the outcome of a command on one key to the keys.

ghost use Rattle.std.specs.Prelude.{◌≡◌, ◌+◌, ◌++◌, [], None, Some, IsSome, is_some, length, vec_capacity, vec_len, IfOk, OnOk, OnErr};
ghost use Rattle.std.specs.Option.{option_copied};
ghost use Rattle.core_types.specs.Keys.{value_at, with_value};
ghost use Rattle.key_cmds.specs.Run.{native_in};
ghost use Rattle.key_cmds.specs.inner.Plain.{value_of};
ghost use Rattle.key_cmds.specs.inner.Settling.{HasRoom, Puts, leaving, settled};

use crate::Ran;
use crate::plain::Plain;
use core_types::{After, NoMemory, Outcome, Value};
use key_store::KeyStore;

/// Carries an outcome to a key. There is room for what the key has; memory is taken only to put a
/// value.
pub(crate) fn settle<N>(
    keys: &mut KeyStore<N>,
    key: &[u8],
    there: bool,
    outcome: Outcome<Plain>,
    left: &mut Vec<N>,
) -> Result<Ran, NoMemory>
    requires there { there ≡ is_some (value_at keys.old key.now) }
    requires room { HasRoom left.old (value_at keys.old key.now) }
    ensures keys { OnOk result (keys.new ≡ settled outcome.body key.now keys.old) }
    ensures told { IfOk result
        (λ ran. ran ≡ record {
          reply = outcome.reply;
          effects = outcome.effects;
          notes =
              outcome.notes;
        }) }
    ensures left { OnOk result
        (left.new.items ≡ left.old.items ++ leaving outcome.body (value_at keys.old key.now)) }
    ensures puts { OnErr result (Puts outcome.body) }
    ensures err { OnErr result ((keys.new ≡ keys.old) × (left.new.items ≡ left.old.items)) }
{
    let Outcome {
        body,
        reply,
        effects,
        notes,
    } = outcome;
    carry_out(keys, key, there, body, left)?;
    Ok(Ran {
        reply,
        effects,
        notes,
    })
}

fn carry_out<N>(
    keys: &mut KeyStore<N>,
    key: &[u8],
    there: bool,
    body: After<Plain>,
    left: &mut Vec<N>,
) -> Result<(), NoMemory>
    requires there { there ≡ is_some (value_at keys.old key.now) }
    requires room { HasRoom left.old (value_at keys.old key.now) }
    ensures keys { OnOk result (keys.new ≡ settled body key.now keys.old) }
    ensures left { OnOk result
        (left.new.items ≡ left.old.items ++ leaving body (value_at keys.old key.now)) }
    ensures puts { OnErr result (Puts body) }
    ensures err { OnErr result ((keys.new ≡ keys.old) × (left.new.items ≡ left.old.items)) }
{
    match body {
        After::Keep => Ok(()),
        After::Put(value) => put(keys, key, there, value, left),
        After::Remove => {
            hand_over(keys.take(key), left);
            Ok(())
        }
    }
}

/// Gives a key this value and no deadline. There is room for what the key has. An `Err` changes
/// nothing.
pub(crate) fn put<N>(
    keys: &mut KeyStore<N>,
    key: &[u8],
    there: bool,
    value: Plain,
    left: &mut Vec<N>,
) -> Result<(), NoMemory>
    requires there { there ≡ is_some (value_at keys.old key.now) }
    requires room { HasRoom left.old (value_at keys.old key.now) }
    ensures keys { OnOk result (keys.new ≡ with_value keys.old key.now (value_of value)) }
    ensures left { OnOk result
        (left.new.items ≡ left.old.items ++ native_in (value_at keys.old key.now)) }
    ensures err { OnErr result ((keys.new ≡ keys.old) × (left.new.items ≡ left.old.items)) }
{
    if there {
        replace(keys, key, value, left)
    } else {
        put_new(keys, key, value)
    }
}

// Gives a key that is there another value.
fn replace<N>(
    keys: &mut KeyStore<N>,
    key: &[u8],
    value: Plain,
    left: &mut Vec<N>,
) -> Result<(), NoMemory>
    requires there { IsSome (value_at keys.old key.now) }
    requires room { HasRoom left.old (value_at keys.old key.now) }
    ensures keys { OnOk result (keys.new ≡ with_value keys.old key.now (value_of value)) }
    ensures left { OnOk result
        (left.new.items ≡ left.old.items ++ native_in (value_at keys.old key.now)) }
    ensures err { OnErr result ((keys.new ≡ keys.old) × (left.new.items ≡ left.old.items)) }
{
    match keys.replace(key, value.into_value()) {
        Ok(before) => {
            hand_over(Some(before), left);
            Ok(())
        }
        Err(value) => {
            discard(value);
            Err(NoMemory)
        }
    }
}

/// Gives a key that is not there a value. An `Err` changes nothing.
pub(crate) fn put_new<N>(keys: &mut KeyStore<N>, key: &[u8], value: Plain) -> Result<(), NoMemory>
    requires absent { value_at keys.old key.now ≡ None }
    ensures ok { OnOk result (keys.new ≡ with_value keys.old key.now (value_of value)) }
    ensures err { OnErr result (keys.new ≡ keys.old) }
{
    match keys.put_new(key, value.into_value()) {
        Ok(()) => Ok(()),
        Err(value) => {
            discard(value);
            Err(NoMemory)
        }
    }
}

/// Makes room for a value of a module, where this is what will leave.
pub(crate) fn make_room<N>(leaving: Option<&Value<N>>, left: &mut Vec<N>) -> Result<(), NoMemory>
    ensures room { OnOk result (HasRoom left.new (option_copied leaving.entry)) }
    ensures same { left.new.items ≡ left.old.items }
{
    if let Some(Value::Native(_)) = leaving {
        left.reserve(1)?;
    }
    Ok(())
}

/// Hands over the value of a module, where this is what leaves. Takes no memory.
pub(crate) fn hand_over<N>(leaving: Option<Value<N>>, left: &mut Vec<N>)
    requires { HasRoom left.old leaving }
    ensures items { left.new.items ≡ left.old.items ++ native_in leaving }
    ensures length { vec_len left.new ≡ vec_len left.old + length (native_in leaving) }
    ensures capacity { vec_capacity left.new ≡ vec_capacity left.old }
{
    match leaving {
        Some(Value::Native(native)) => left.push_reserved(native),
        Some(Value::Str(_)) | Some(Value::List(_)) | Some(Value::Hash(_)) | None => {}
    }
}

/// Drops a value that is no module's.
pub(crate) fn discard<N>(value: Value<N>)
    requires { native_in (Some value) ≡ [] }
{
    match value {
        Value::Str(_) | Value::List(_) | Value::Hash(_) => {}
        Value::Native(_) => unreachable!(),
    }
}
