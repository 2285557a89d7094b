//! The commands that answer what a hash holds.

ghost use Rattle.std.specs.Prelude.{◌≡◌, ◌<◌, ◌≤◌, ◌++◌, List, [], ◌∷◌, Option, IfOk, OnOk, length, slice_get, Some};
ghost use Rattle.core_types.specs.Done.{Does};
ghost use Rattle.core_types.specs.Fields.{field_value};
ghost use Rattle.core_types.specs.declared.field.Field.{Field};
ghost use Rattle.core_types.specs.declared.reply.Reply.{Reply};
ghost use Rattle.core_types.specs.Answers.{bulk_or_null, several};
ghost use Rattle.hash_cmds.specs.Reading.{count_fields, exists, field_shown, get, get_each, show_fields, shown_of, value_length, values_of};

use core_types::{Args, Blob, HashBody, NoMemory, Outcome, Replies, Reply, Words};
use std::alloc::Global;

/// What is shown of each field.
#[derive(Clone, Copy, Debug, PartialEq, Eq)]
pub(crate) enum Shown {
    /// Its name.
    Names,
    /// Its value.
    Values,
    /// Its name, and then its value.
    Both,
}

/// `HGET k f`.
pub(crate) fn get(
    alloc: Global,
    hash: &HashBody,
    words: &Args,
) -> Result<Outcome<HashBody>, NoMemory>
    requires { length words.now ≡ 3 }
    ensures { IfOk result
        (λ o. (old : Option (List Field)) → Does o old old (get hash.now words.now)) }
{
    Ok(Outcome::answer(alloc, bulk_or_null(alloc, hash, words.word(2))?))
}

// A copy of the value of a name, or a null.
fn bulk_or_null(alloc: Global, hash: &HashBody, name: &[u8]) -> Result<Reply, NoMemory>
    ensures { IfOk result (λ said. said ≡ bulk_or_null (field_value hash.now name.now)) }
{
    match hash.get(name) {
        Some(value) => Ok(Reply::Bulk(value.copy(alloc)?)),
        None => Ok(Reply::Null),
    }
}

/// `HMGET k f ..`.
pub(crate) fn get_each(
    alloc: Global,
    hash: &HashBody,
    words: &Args,
) -> Result<Outcome<HashBody>, NoMemory>
    requires { 2 ≤ length words.now }
    ensures { IfOk result
        (λ o. (old : Option (List Field)) → Does o old old (get_each hash.now words.now)) }
{
    let replies = values(alloc, hash, words.from_place(2))?;
    Ok(Outcome::answer(alloc, Reply::Array(replies)))
}

// The value of each name, or a null.
fn values(alloc: Global, hash: &HashBody, names: Words<'_>) -> Result<Replies, NoMemory>
    ensures { IfOk result (λ replies. replies ≡ values_of hash.now names.entry) }
{
    let mut replies = Replies::new(alloc);
    for name in names {
        replies.push(bulk_or_null(alloc, hash, name)?)?;
    }
    Ok(replies)
}

/// `HLEN k`.
pub(crate) fn count_fields(alloc: Global, hash: &HashBody) -> Outcome<HashBody>
    ensures { (old : Option (List Field)) → Does result old old (count_fields hash.now) }
{
    Outcome::answer(alloc, Reply::Int(hash.len() as i64))
}

/// `HEXISTS k f`.
pub(crate) fn exists(alloc: Global, hash: &HashBody, words: &Args) -> Outcome<HashBody>
    requires { length words.now ≡ 3 }
    ensures { (old : Option (List Field)) → Does result old old (exists hash.now words.now) }
{
    let there = hash.get(words.word(2)).is_some();
    Outcome::answer(alloc, Reply::Int(i64::from(there)))
}

/// `HSTRLEN k f`.
pub(crate) fn value_length(alloc: Global, hash: &HashBody, words: &Args) -> Outcome<HashBody>
    requires { length words.now ≡ 3 }
    ensures { (old : Option (List Field)) → Does result old old (value_length hash.now words.now) }
{
    let size = match hash.get(words.word(2)) {
        Some(value) => value.as_slice().len() as i64,
        None => 0,
    };
    Outcome::answer(alloc, Reply::Int(size))
}

/// `HKEYS k`, `HVALS k` and `HGETALL k`.
pub(crate) fn show_fields(
    alloc: Global,
    hash: &HashBody,
    what: Shown,
) -> Result<Outcome<HashBody>, NoMemory>
    ensures { IfOk result
        (λ o. (old : Option (List Field)) → Does o old old (show_fields what hash.now)) }
{
    let replies = all_shown(alloc, hash, what)?;
    Ok(Outcome::answer(alloc, Reply::Array(replies)))
}

fn all_shown(alloc: Global, hash: &HashBody, what: Shown) -> Result<Replies, NoMemory>
    ensures { IfOk result (λ replies. replies ≡ shown_of what hash.now) }
{
    let mut replies = Replies::new(alloc);
    for place in 0..hash.len() {
        show(alloc, &mut replies, hash, place, what)?;
    }
    Ok(replies)
}

// Adds what is shown of the field at a place.
fn show(
    alloc: Global,
    replies: &mut Replies,
    hash: &HashBody,
    place: usize,
    what: Shown,
) -> Result<(), NoMemory>
    requires { place < length hash.now }
    ensures { OnOk result
        ((field : Field) (before : List Reply) → slice_get hash.now place ≡ Some field
        → replies.old ≡ several before
        → replies.new ≡ several (before ++ field_shown what field)) }
{
    let name = hash.name_at(place).unwrap();
    let value = hash.value_at(place).unwrap();
    match what {
        Shown::Names => push_bulk(alloc, replies, name),
        Shown::Values => push_bulk(alloc, replies, value.as_slice()),
        Shown::Both => {
            push_bulk(alloc, replies, name)?;
            push_bulk(alloc, replies, value.as_slice())
        }
    }
}

// Adds a byte string.
fn push_bulk(alloc: Global, replies: &mut Replies, bytes: &[u8]) -> Result<(), NoMemory>
    ensures { OnOk result
        ((before : List Reply) → replies.old ≡ several before
        → replies.new ≡ several (before ++ Reply.Bulk bytes.now ∷ [])) }
{
    replies.push(Reply::Bulk(Blob::from_slice(alloc, bytes)?))
}
