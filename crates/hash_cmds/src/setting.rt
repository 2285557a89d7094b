//! HSET, HMSET and HSETNX: they put fields.

ghost use Rattle.std.specs.Prelude.{◌≡◌, ◌<◌, ◌≤◌, ◌+◌, ◌^◌, ◌∷◌, [], codes, length, Some, IfOk, OnOk, OnErr};
ghost use Rattle.core_types.specs.Done.{Does, own_words};
ghost use Rattle.hash_cmds.specs.Setting.{set_fields, set_if_absent, sets, with_pairs};
ghost use Rattle.hash_cmds.specs.Words.{hash_note};

use crate::words::{hash_note, pairs};
use core_types::{After, Args, Effect, HashBody, NoMemory, Outcome, Reply};
use std::alloc::Global;

/// `HSET k f v ..`: the number of new fields is answered.
pub(crate) fn set_fields(
    alloc: Global,
    hash: &mut HashBody,
    words: &Args,
) -> Result<Outcome<HashBody>, NoMemory>
    requires { 2 ≤ length words.now }
    ensures does { IfOk result
        (λ o. Does o (Some hash.old) (Some hash.new) (set_fields hash.old words.now)) }
    ensures err { OnErr result (hash.new ≡ hash.old) }
{
    let before = hash.len();
    let mut outcome = sets(alloc, hash, Reply::Int(0), words)?;
    outcome.reply = Reply::Int((hash.len() - before) as i64);
    Ok(outcome)
}

/// `HMSET k f v ..`.
pub(crate) fn set_all(
    alloc: Global,
    hash: &mut HashBody,
    words: &Args,
) -> Result<Outcome<HashBody>, NoMemory>
    requires { 2 ≤ length words.now }
    ensures does { IfOk result
        (λ o. Does o (Some hash.old) (Some hash.new)
        (sets hash.old (Reply.Simple (codes "OK")) words.now)) }
    ensures err { OnErr result (hash.new ≡ hash.old) }
{
    let ok = Reply::simple(alloc, b"OK")?;
    sets(alloc, hash, ok, words)
}

/// `HSETNX k f v`.
pub(crate) fn set_if_absent(
    alloc: Global,
    hash: &mut HashBody,
    words: &Args,
) -> Result<Outcome<HashBody>, NoMemory>
    requires { length words.now ≡ 4 }
    ensures does { IfOk result
        (λ o. Does o (Some hash.old) (Some hash.new) (set_if_absent hash.old words.now)) }
    ensures err { OnErr result (hash.new ≡ hash.old) }
{
    if hash.get(words.word(2)).is_some() {
        Ok(Outcome::answer(alloc, Reply::Int(0)))
    } else {
        sets(alloc, hash, Reply::Int(1), words)
    }
}

// Puts the pairs behind the key, all of them or none.
fn sets(
    alloc: Global,
    hash: &mut HashBody,
    reply: Reply,
    words: &Args,
) -> Result<Outcome<HashBody>, NoMemory>
    requires { 2 ≤ length words.now }
    ensures outcome { IfOk result (λ o. o ≡ record {
      body = After.Keep;
      reply = reply;
      effects = own_words (codes "HSET") words.now ∷ [];
      notes = hash_note (codes "hset") words.now ∷ [];
    }) }
    ensures fields { OnOk result (hash.new ≡ with_pairs hash.old words.now) }
    ensures more { OnOk result (length hash.old ≤ length hash.new) }
    ensures err { OnErr result (hash.new ≡ hash.old) }
{
    let fields = pairs(alloc, words.from_place(2))?;
    let effect = Effect::own_words(alloc, b"HSET", words)?;
    let note = hash_note(alloc, b"hset", words)?;
    let outcome = Outcome::change(alloc, After::Keep, reply, effect, note)?;
    hash.put_all(fields)?;
    Ok(outcome)
}
