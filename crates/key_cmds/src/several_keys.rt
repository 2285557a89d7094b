//! The commands on keys of any kind that only answer: EXISTS, TYPE, DBSIZE and MGET; and RENAME.

ghost use Rattle.std.specs.Prelude.{◌≡◌, ◌≤◌, ◌<◌, ◌^◌, [], ◌∷◌, ◌++◌, codes, length, filter, map, IfOk, OnOk, OnErr};
ghost use Rattle.std.specs.Option.{option_copied};
ghost use Rattle.core_types.specs.Answers.{several};
ghost use Rattle.core_types.specs.Done.{own_words};
ghost use Rattle.sequences.specs.Words.{word};
ghost use Rattle.core_types.specs.Keys.{value_at};
ghost use Rattle.key_cmds.specs.Run.{told};
ghost use Rattle.key_cmds.specs.SeveralKeys.{count, exists, generic_note, get_each, is_there, ok, rename, string_in, tell_type, type_of};

use crate::ran::{generic_note, ok, own_change};
use crate::settling::{hand_over, make_room};
use crate::{ModuleValue, Ran};
use core_types::{Args, Blob, NoMemory, Notes, Refusal, Replies, Reply, Value, Words};
use key_store::KeyStore;
use std::alloc::Global;

/// `EXISTS key..`: how many words name a key that is there.
pub(crate) fn exists<N>(alloc: Global, keys: &KeyStore<N>, words: &Args) -> Ran
    requires { 2 ≤ length words.now }
    ensures { result ≡ told (exists keys.now words.now) }
{
    let count = count_there(keys, words.from_place(1));
    Ran::answer(alloc, Reply::Int(count as i64))
}

fn count_there<N>(keys: &KeyStore<N>, names: Words<'_>) -> usize
    ensures count { result ≡ length (filter (is_there keys.now) names.entry) }
    ensures small { result < 2 ^ 63 }
{
    let mut count = names.len();
    for name in names {
        if keys.get(name).is_none() {
            count -= 1;
        }
    }
    count
}

/// `TYPE key`: the name of the type of what a key holds.
pub(crate) fn tell_type<N: ModuleValue>(
    alloc: Global,
    keys: &KeyStore<N>,
    words: &Args,
) -> Result<Ran, NoMemory>
    requires { length words.now ≡ 2 }
    ensures { IfOk result (λ ran. ran ≡ told (tell_type N.type_name keys.now words.now)) }
{
    let reply = type_reply(alloc, keys.get(words.word(1)))?;
    Ok(Ran::answer(alloc, reply))
}

// The name of the type of a value, or `none`.
#[tactic(auto, using(crate::proofs::Printed::printed))]
fn type_reply<N: ModuleValue>(alloc: Global, value: Option<&Value<N>>) -> Result<Reply, NoMemory>
    ensures { IfOk result
        (λ reply. reply ≡ Reply.Simple (type_of N.type_name (option_copied value.entry))) }
{
    match value {
        None => Reply::simple(alloc, b"none"),
        Some(Value::Str(_)) => Reply::simple(alloc, b"string"),
        Some(Value::List(_)) => Reply::simple(alloc, b"list"),
        Some(Value::Hash(_)) => Reply::simple(alloc, b"hash"),
        Some(Value::Native(native)) => {
            let name = native.type_name();
            Reply::simple(alloc, name.text())
        }
    }
}

/// `DBSIZE`: the number of keys.
pub(crate) fn count<N>(alloc: Global, keys: &KeyStore<N>) -> Ran
    ensures { result ≡ told (count keys.now) }
{
    Ran::answer(alloc, Reply::Int(keys.len() as i64))
}

/// `MGET key..`: the strings of keys.
pub(crate) fn get_each<N>(alloc: Global, keys: &KeyStore<N>, words: &Args) -> Result<Ran, NoMemory>
    requires { 2 ≤ length words.now }
    ensures { IfOk result (λ ran. ran ≡ told (get_each keys.now words.now)) }
{
    let replies = strings(alloc, keys, words.from_place(1))?;
    Ok(Ran::answer(alloc, Reply::Array(replies)))
}

// The string of each key, or a null.
fn strings<N>(alloc: Global, keys: &KeyStore<N>, names: Words<'_>) -> Result<Replies, NoMemory>
    ensures { IfOk result
        (λ replies. replies ≡ several (map (λ key. string_in (value_at keys.now key)) names.entry)) }
{
    let mut replies = Replies::new(alloc);
    for name in names {
        replies.push(string_in(alloc, keys.get(name))?)?;
    }
    Ok(replies)
}

// A copy of a string, or a null in place of anything else.
fn string_in<N>(alloc: Global, value: Option<&Value<N>>) -> Result<Reply, NoMemory>
    ensures { IfOk result (λ reply. reply ≡ string_in (option_copied value.entry)) }
{
    match value {
        Some(Value::Str(text)) => Ok(Reply::Bulk(text.copy(alloc)?)),
        _ => Ok(Reply::Null),
    }
}

/// `RENAME from to`: moves what a key has to another, with its deadline.
pub(crate) fn rename<N>(
    alloc: Global,
    keys: &mut KeyStore<N>,
    words: &Args,
    left: &mut Vec<N>,
) -> Result<Ran, NoMemory>
    requires { length words.now ≡ 3 }
    ensures keys { OnOk result (keys.new ≡ (rename keys.old words.now).keys) }
    ensures told { IfOk result (λ ran. ran ≡ told (rename keys.old words.now)) }
    ensures left { OnOk result
        (left.new.items ≡ left.old.items ++ (rename keys.old words.now).left) }
    ensures err { OnErr result ((keys.new ≡ keys.old) × (left.new.items ≡ left.old.items)) }
{
    let from = words.word(1);
    let to = words.word(2);
    if keys.get(from).is_none() {
        return Ran::refuse(alloc, Refusal::NoSuchKey);
    }
    if from == to {
        return Ok(Ran::answer(alloc, ok(alloc)?));
    }
    let ran = renamed(alloc, words)?;
    make_room(keys.get(to), left)?;
    let before = keys.rename(from, Blob::from_slice(alloc, to)?)?;
    hand_over(before, left);
    Ok(ran)
}

fn renamed(alloc: Global, words: &Args) -> Result<Ran, NoMemory>
    requires { length words.now ≡ 3 }
    ensures { IfOk result (λ ran. ran ≡ record {
      reply = ok;
      effects = own_words (codes "RENAME") words.now ∷ [];
      notes = generic_note (codes "rename_from") (word 1 words.now)
          ∷ generic_note (codes "rename_to") (word 2 words.now) ∷ [];
    }) }
{
    let mut notes = Notes::new(alloc);
    notes.push(generic_note(alloc, b"rename_from", words.word(1))?)?;
    notes.push(generic_note(alloc, b"rename_to", words.word(2))?)?;
    Ok(Ran {
        reply: ok(alloc)?,
        effects: own_change(alloc, b"RENAME", words)?,
        notes,
    })
}
