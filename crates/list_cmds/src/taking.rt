//! LPOP, RPOP, LTRIM and LREM: they take items out of a list.

ghost use Rattle.std.specs.Prelude.{◌≡◌, ◌<◌, ◌+◌, ◌∷◌, [], if◌then◌else◌, length, Some, IfOk, OnErr};
ghost use Rattle.core_types.specs.Done.{Does, own_words, del_note};
ghost use Rattle.list_cmds.specs.Taking.{pop_back, pop_front, remove, trim, without};
ghost use Rattle.list_cmds.specs.Words.{list_note};

use crate::words::{counted, list_note};
use byte_text::number_in;
use core_types::{
    After, Args, Effect, ListBody, NoMemory, Note, NoteClass, Outcome, Reply, cut_range,
};
use std::alloc::Global;

/// `LPOP k`, where the key holds a list.
pub(crate) fn pop_front(
    alloc: Global,
    old: &mut ListBody,
    words: &Args,
) -> Result<Outcome<ListBody>, NoMemory>
    requires { length words.now ≡ 2 }
    ensures does { IfOk result
        (λ o. Does o (Some old.old) (Some old.new) (pop_front old.old words.now)) }
    ensures err { OnErr result (old.new ≡ old.old) }
{
    let mut outcome = taken(alloc, old.len() == 1, Reply::Null, b"LPOP", b"lpop", words)?;
    match old.pop_front() {
        Some(item) => {
            outcome.reply = Reply::Bulk(item);
            Ok(outcome)
        }
        None => Ok(Outcome::answer(alloc, Reply::Null)),
    }
}

/// `RPOP k`, where the key holds a list.
pub(crate) fn pop_back(
    alloc: Global,
    old: &mut ListBody,
    words: &Args,
) -> Result<Outcome<ListBody>, NoMemory>
    requires { length words.now ≡ 2 }
    ensures does { IfOk result
        (λ o. Does o (Some old.old) (Some old.new) (pop_back old.old words.now)) }
    ensures err { OnErr result (old.new ≡ old.old) }
{
    let mut outcome = taken(alloc, old.len() == 1, Reply::Null, b"RPOP", b"rpop", words)?;
    match old.pop_back() {
        Some(item) => {
            outcome.reply = Reply::Bulk(item);
            Ok(outcome)
        }
        None => Ok(Outcome::answer(alloc, Reply::Null)),
    }
}

/// `LTRIM k s e`, where the key holds a list.
pub(crate) fn trim(
    alloc: Global,
    old: &mut ListBody,
    words: &Args,
) -> Result<Outcome<ListBody>, NoMemory>
    requires { length words.now ≡ 4 }
    ensures does { IfOk result
        (λ o. Does o (Some old.old) (Some old.new) (trim (Some old.old) words.now)) }
    ensures err { OnErr result (old.new ≡ old.old) }
{
    let cut = cut_range(
        old.len(),
        number_in(words.word(2)),
        number_in(words.word(3)),
    );
    let reply = Reply::simple(alloc, b"OK")?;
    let outcome = taken(
        alloc,
        cut.start == cut.end,
        reply,
        b"LTRIM",
        b"ltrim",
        words,
    )?;
    old.keep_range(cut.start, cut.end);
    Ok(outcome)
}

/// `LREM k c v`, where the key holds a list.
pub(crate) fn remove(
    alloc: Global,
    old: &mut ListBody,
    words: &Args,
) -> Result<Outcome<ListBody>, NoMemory>
    requires { length words.now ≡ 4 }
    ensures does { IfOk result
        (λ o. Does o (Some old.old) (Some old.new) (remove old.old words.now)) }
    ensures err { OnErr result (old.new ≡ old.old) }
{
    let emptied = taken(alloc, true, Reply::Null, b"LREM", b"lrem", words)?;
    let left = taken(alloc, false, Reply::Null, b"LREM", b"lrem", words)?;
    let count = remove_equal(old, number_in(words.word(2)), words.word(3));
    if count == 0 {
        return Ok(Outcome::answer(alloc, counted(0)));
    }
    let mut outcome = if old.is_empty() { emptied } else { left };
    outcome.reply = counted(count);
    Ok(outcome)
}

// Takes out items that are equal to this one: how many.
fn remove_equal(list: &mut ListBody, count: i64, item: &[u8]) -> usize
    ensures left { list.new ≡ without count item.now list.old }
    ensures count { result + length list.new ≡ length list.old }
{
    let most = count.unsigned_abs() as usize;
    if count < 0 {
        list.remove_last(most, item)
    } else if count > 0 {
        list.remove_first(most, item)
    } else {
        let all = list.len();
        list.remove_first(all, item)
    }
}

// The outcome of items that are taken out of a list, of all of them or not.
fn taken(
    alloc: Global,
    all: bool,
    reply: Reply,
    name: &[u8],
    event: &[u8],
    words: &Args,
) -> Result<Outcome<ListBody>, NoMemory>
    requires { 1 < length words.now }
    ensures outcome { IfOk result (λ o. o ≡ record {
      body = if all then After.Remove else After.Keep;
      reply = reply;
      effects = own_words name.now words.now ∷ [];
      notes = list_note event.now words.now ∷ (if all then del_note words.now ∷ [] else []);
    }) }
{
    let body = if all { After::Remove } else { After::Keep };
    let effect = Effect::own_words(alloc, name, words)?;
    let note = list_note(alloc, event, words)?;
    let mut outcome = Outcome::change(alloc, body, reply, effect, note)?;
    if all {
        outcome
            .notes
            .push(Note::on_key(alloc, NoteClass::Generic, b"del", words)?)?;
    }
    Ok(outcome)
}
