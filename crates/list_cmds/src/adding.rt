//! LPUSH, RPUSH and LSET: they put items into a list.

ghost use Rattle.std.specs.Prelude.{◌≡◌, ◌<◌, ◌≤◌, ◌∷◌, [], codes, length, Some, None, IfOk, OnErr};
ghost use Rattle.core_types.specs.Done.{Does, own_words};
ghost use Rattle.list_cmds.specs.Adding.{push_back, push_front, set_item};
ghost use Rattle.list_cmds.specs.Words.{counted, list_note};

use crate::words::{counted, items_of, list_note, place_of};
use byte_text::number_in;
use core_types::{After, Args, Blob, Effect, ListBody, NoMemory, Outcome, Refusal, Reply};
use std::alloc::Global;

/// `LPUSH k v..`, where the key holds a list.
pub(crate) fn push_front(
    alloc: Global,
    old: &mut ListBody,
    words: &Args,
) -> Result<Outcome<ListBody>, NoMemory>
    requires { 3 ≤ length words.now }
    ensures does { IfOk result
        (λ o. Does o (Some old.old) (Some old.new) (push_front old.old words.now)) }
    ensures err { OnErr result (old.new ≡ old.old) }
{
    let items = items_of(alloc, words)?;
    let size = old.len().saturating_add(items.len());
    let outcome = added(alloc, After::Keep, counted(size), b"LPUSH", b"lpush", words)?;
    old.extend_front(items)?;
    Ok(outcome)
}

/// `LPUSH k v..`, where the key is not there.
pub(crate) fn push_front_new(alloc: Global, words: &Args) -> Result<Outcome<ListBody>, NoMemory>
    requires { 3 ≤ length words.now }
    ensures { IfOk result (λ o. Does o None None (push_front [] words.now)) }
{
    let mut list = ListBody::new(alloc)?;
    list.extend_front(items_of(alloc, words)?)?;
    let size = counted(list.len());
    added(alloc, After::Put(list), size, b"LPUSH", b"lpush", words)
}

/// `RPUSH k v..`, where the key holds a list.
pub(crate) fn push_back(
    alloc: Global,
    old: &mut ListBody,
    words: &Args,
) -> Result<Outcome<ListBody>, NoMemory>
    requires { 3 ≤ length words.now }
    ensures does { IfOk result
        (λ o. Does o (Some old.old) (Some old.new) (push_back old.old words.now)) }
    ensures err { OnErr result (old.new ≡ old.old) }
{
    let items = items_of(alloc, words)?;
    let size = old.len().saturating_add(items.len());
    let outcome = added(alloc, After::Keep, counted(size), b"RPUSH", b"rpush", words)?;
    old.extend_back(items)?;
    Ok(outcome)
}

/// `RPUSH k v..`, where the key is not there.
pub(crate) fn push_back_new(alloc: Global, words: &Args) -> Result<Outcome<ListBody>, NoMemory>
    requires { 3 ≤ length words.now }
    ensures { IfOk result (λ o. Does o None None (push_back [] words.now)) }
{
    let mut list = ListBody::new(alloc)?;
    list.extend_back(items_of(alloc, words)?)?;
    let size = counted(list.len());
    added(alloc, After::Put(list), size, b"RPUSH", b"rpush", words)
}

/// `LSET k i v`, where the key holds a list.
pub(crate) fn set_item(
    alloc: Global,
    old: &mut ListBody,
    words: &Args,
) -> Result<Outcome<ListBody>, NoMemory>
    requires { length words.now ≡ 4 }
    ensures does { IfOk result
        (λ o. Does o (Some old.old) (Some old.new) (set_item (Some old.old) words.now)) }
    ensures err { OnErr result (old.new ≡ old.old) }
{
    let Some(place) = place_of(old.len(), number_in(words.word(2))) else {
        return Outcome::refuse(alloc, Refusal::IndexOutOfRange);
    };
    let item = Blob::from_slice(alloc, words.word(3))?;
    let reply = Reply::simple(alloc, b"OK")?;
    let outcome = added(alloc, After::Keep, reply, b"LSET", b"lset", words)?;
    let _ = old.replace(place, item);
    Ok(outcome)
}

// The outcome of items that were put into a list.
fn added(
    alloc: Global,
    body: After<ListBody>,
    reply: Reply,
    name: &[u8],
    event: &[u8],
    words: &Args,
) -> Result<Outcome<ListBody>, NoMemory>
    requires { 1 < length words.now }
    ensures outcome { IfOk result (λ o. o ≡ record {
      body = body;
      reply = reply;
      effects = own_words name.now words.now ∷ [];
      notes = list_note event.now words.now ∷ [];
    }) }
{
    let effect = Effect::own_words(alloc, name, words)?;
    let note = list_note(alloc, event, words)?;
    Outcome::change(alloc, body, reply, effect, note)
}
