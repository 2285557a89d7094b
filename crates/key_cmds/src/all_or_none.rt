//! Sets the keys of pairs, all of them or none.

ghost use Rattle.std.specs.Prelude.{◌≡◌, ◌+◌, ◌≤◌, ◌∷◌, ◌++◌, [], None, Some, if◌then◌else◌, length, map, vec_capacity, vec_len, IfOk, OnOk, OnErr};
ghost use Rattle.std.specs.Option.{option_copied};
ghost use Rattle.core_types.specs.Keys.{KeysOf, value_at, with_value};
ghost use Rattle.key_cmds.specs.Run.{native_in};
ghost use Rattle.key_cmds.specs.SeveralKeys.{left_by_pairs, with_pairs};
ghost use Rattle.key_cmds.specs.inner.Setting.{ArePut, AreThere, IsBegun, WerePut, keys_looked_at, looked_at, none_begun};

use crate::pairs::Pairs;
use crate::plain::Plain;
use crate::settling::{discard, hand_over, put_new};
use core_types::{Blob, NoMemory, Value};
use key_store::{KeyStore, Name};
use std::alloc::Global;
use std::collections::VecDeque;
use std::marker::Model;

// What a key that is there is to have: all the memory that it takes to set it.
#[derive(Debug, Drop)]
struct Setting {
    name: Name,
    text: Blob,
}

impl Model for Setting {
    ghost use Rattle.key_cmds.specs.SeveralKeys.{Pair};

    ghost Value = { Pair };

    ghost view = { λ s. record { key = s.name; value = s.text } };
}

// What the first pass over the pairs has gathered.
#[derive(Drop)]
struct Begun<'a> {
    // The keys that were not there and were put, in order.
    put: Vec<&'a [u8]>,
    // What is still to be set, in order.
    settings: Vec<Setting>,
    // At most how many values of modules leave by it.
    natives: usize,
}

impl<'a> Model for Begun<'a> {
    ghost use Rattle.std.specs.Prelude.{◌≤◌, map, vec_len};
    ghost use Rattle.key_cmds.specs.inner.Setting.{Begun as Spoken};

    ghost Value = { Spoken };

    ghost view = { λ b. record {
      put = map (λ key. key.now) b.put.items;
      settings = b.settings.items;
      natives = b.natives;
    } };

    ghost invariant = { λ b. b.natives ≤ vec_len b.settings };
}

/// Sets the pairs, one after the other: each key has the string of its last pair, and no deadline.
/// An `Err` changes nothing. A key is looked up twice, and once more before an `Err` where it was put.
pub(crate) fn set_pairs<N>(
    alloc: Global,
    keys: &mut KeyStore<N>,
    pairs: Pairs<'_>,
    left: &mut Vec<N>,
) -> Result<(), NoMemory>
    ensures keys { OnOk result (keys.new ≡ with_pairs pairs.entry keys.old) }
    ensures left { OnOk result
        (left.new.items ≡ left.old.items ++ left_by_pairs pairs.entry keys.old) }
    ensures err { OnErr result ((keys.new ≡ keys.old) × (left.new.items ≡ left.old.items)) }
{
    let settings = begin(alloc, keys, pairs, left)?;
    replace_each(keys, VecDeque::from_vec(settings), left);
    Ok(())
}

// Puts the keys that are not there, and takes all the memory that the others need. An `Err` changes
// nothing.
fn begin<N>(
    alloc: Global,
    keys: &mut KeyStore<N>,
    pairs: Pairs<'_>,
    left: &mut Vec<N>,
) -> Result<Vec<Setting>, NoMemory>
    ensures begun { IfOk result
        (λ settings. IsBegun pairs.entry settings.items keys.old keys.new) }
    ensures room { IfOk result (λ settings. vec_len left.new
        + length (left_by_pairs settings.items keys.new) ≤ vec_capacity left.new) }
    ensures left { left.new.items ≡ left.old.items }
    ensures err { OnErr result (keys.new ≡ keys.old) }
{
    let mut begun = Begun {
        put: Vec::new(alloc),
        settings: Vec::new(alloc),
        natives: 0,
    };
    match prepare(alloc, keys, pairs, &mut begun, left) {
        Ok(()) => Ok(begun.settings),
        Err(NoMemory) => {
            take_out(keys, begun.put);
            Err(NoMemory)
        }
    }
}

// The first pass over the pairs. What it has put by then stays put where memory runs out.
fn prepare<'a, N>(
    alloc: Global,
    keys: &mut KeyStore<N>,
    pairs: Pairs<'a>,
    begun: &mut Begun<'a>,
    left: &mut Vec<N>,
) -> Result<(), NoMemory>
    requires none { begun.old ≡ none_begun }
    ensures put { ArePut begun.new.put keys.old keys.new }
    ensures begun { OnOk result (IsBegun pairs.entry begun.new.settings keys.old keys.new) }
    ensures room { OnOk result (vec_len left.new
        + length (left_by_pairs begun.new.settings keys.new) ≤ vec_capacity left.new) }
    ensures left { left.new.items ≡ left.old.items }
{
    for (key, text) in pairs {
        begun.look_at(alloc, keys, key, text)?;
    }
    left.reserve(begun.natives)?;
    Ok(())
}

impl<'a> Begun<'a> {
    // Looks at a pair. An `Err` changes nothing.
    fn look_at<N>(
        &mut self,
        alloc: Global,
        keys: &mut KeyStore<N>,
        key: &'a [u8],
        text: &[u8],
    ) -> Result<(), NoMemory>
        ensures keys { OnOk result (keys.new ≡ keys_looked_at
            (record { key = key.now; value = text.now }) (value_at keys.old key.now) keys.old) }
        ensures begun { OnOk result (self.new ≡ looked_at
            (record { key = key.now; value = text.now }) (value_at keys.old key.now) self.old) }
        ensures err { OnErr result ((keys.new ≡ keys.old) × (self.new ≡ self.old)) }
    {
        match keys.get(key) {
            None => self.put_absent(alloc, keys, key, text),
            Some(held) => {
                let native = is_native(held);
                self.put_pair(alloc, key, text, native)
            }
        }
    }

    // Puts a key that is not there.
    fn put_absent<N>(
        &mut self,
        alloc: Global,
        keys: &mut KeyStore<N>,
        key: &'a [u8],
        text: &[u8],
    ) -> Result<(), NoMemory>
        requires absent { value_at keys.old key.now ≡ None }
        ensures keys { OnOk result (keys.new ≡ with_value keys.old key.now (Value.Str text.now)) }
        ensures put { OnOk result
            (self.new ≡ record self.old { put = self.old.put ++ key.now ∷ [] }) }
        ensures err { OnErr result ((keys.new ≡ keys.old) × (self.new ≡ self.old)) }
    {
        self.put.reserve(1)?;
        put_new(keys, key, Plain::Str(Blob::from_slice(alloc, text)?))?;
        self.put.push_reserved(key);
        Ok(())
    }

    // Keeps the pair of a key that is there for the second pass.
    fn put_pair(
        &mut self,
        alloc: Global,
        key: &[u8],
        text: &[u8],
        native: bool,
    ) -> Result<(), NoMemory>
        ensures settings { OnOk result (self.new.settings
            ≡ self.old.settings ++ record { key = key.now; value = text.now } ∷ []) }
        ensures natives { OnOk result
            (self.new.natives ≡ self.old.natives + (if native then 1 else 0)) }
        ensures put { self.new.put ≡ self.old.put }
        ensures err { OnErr result (self.new ≡ self.old) }
    {
        let name = Name::new(alloc, key)?;
        let text = Blob::from_slice(alloc, text)?;
        self.settings.push(Setting { name, text })?;
        if native {
            self.natives += 1;
        }
        Ok(())
    }
}

// Whether this is a value of a module.
fn is_native<N>(value: &Value<N>) -> bool
    ensures { (if result then 1 else 0) ≡ length (native_in (Some value.now)) }
{
    matches!(value, Value::Native(_))
}

// The second pass: sets the pairs, whose keys are there. Takes no memory.
fn replace_each<N>(keys: &mut KeyStore<N>, mut settings: VecDeque<Setting>, left: &mut Vec<N>)
    requires there { AreThere settings.items keys.old }
    requires room { vec_len left.old
        + length (left_by_pairs settings.items keys.old) ≤ vec_capacity left.old }
    ensures keys { keys.new ≡ with_pairs settings.items keys.old }
    ensures left { left.new.items ≡ left.old.items ++ left_by_pairs settings.items keys.old }
{
    while let Some(setting) = settings.pop_front() {
        let Setting { name, text } = setting;
        hand_over(Some(keys.replace_by(name, Value::Str(text))), left);
    }
}

// Takes keys out again that were put, the last first.
fn take_out<N>(keys: &mut KeyStore<N>, mut put: Vec<&[u8]>)
    requires put { WerePut (map (λ key. key.now) put.items) keys.old }
    ensures before { (before : KeysOf N)
        → ArePut (map (λ key. key.now) put.entry.items) before keys.old → keys.new ≡ before }
{
    while let Some(key) = put.pop() {
        if let Some(text) = keys.take(key) {
            discard(text);
        }
    }
}
