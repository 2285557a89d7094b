//! Values that are no module's.

ghost use Rattle.std.specs.Prelude.{◌≡◌};
ghost use Rattle.key_cmds.specs.declared.plain.Plain.TheVariants as plain;
ghost use Rattle.key_cmds.specs.inner.Plain.{outcome_of, value_of};

use core_types::{After, Blob, HashBody, ListBody, Outcome, Value};

/// A value of a kind that is no module's. It may be dropped.
#[derive(Debug, Drop)]
pub(crate) enum Plain {
    /// A string.
    Str(Blob),
    /// A list.
    List(ListBody),
    /// A hash.
    Hash(HashBody),
}

impl Plain {
    /// The value that a key may hold.
    pub(crate) fn into_value<N>(self) -> Value<N>
        ensures value { result ≡ value_of self }
    {
        match self {
            Plain::Str(text) => Value::Str(text),
            Plain::List(items) => Value::List(items),
            Plain::Hash(fields) => Value::Hash(fields),
        }
    }
}

/// What a command on a string did.
pub(crate) fn of_string(outcome: Outcome<Blob>) -> Outcome<Plain>
    ensures { result ≡ outcome_of plain.Str outcome }
{
    let Outcome {
        body,
        reply,
        effects,
        notes,
    } = outcome;
    let body = match body {
        After::Keep => After::Keep,
        After::Put(text) => After::Put(Plain::Str(text)),
        After::Remove => After::Remove,
    };
    Outcome {
        body,
        reply,
        effects,
        notes,
    }
}

/// What a command on a list did.
pub(crate) fn of_list(outcome: Outcome<ListBody>) -> Outcome<Plain>
    ensures { result ≡ outcome_of plain.List outcome }
{
    let Outcome {
        body,
        reply,
        effects,
        notes,
    } = outcome;
    let body = match body {
        After::Keep => After::Keep,
        After::Put(items) => After::Put(Plain::List(items)),
        After::Remove => After::Remove,
    };
    Outcome {
        body,
        reply,
        effects,
        notes,
    }
}

/// What a command on a hash did.
pub(crate) fn of_hash(outcome: Outcome<HashBody>) -> Outcome<Plain>
    ensures { result ≡ outcome_of plain.Hash outcome }
{
    let Outcome {
        body,
        reply,
        effects,
        notes,
    } = outcome;
    let body = match body {
        After::Keep => After::Keep,
        After::Put(fields) => After::Put(Plain::Hash(fields)),
        After::Remove => After::Remove,
    };
    Outcome {
        body,
        reply,
        effects,
        notes,
    }
}
