//! The bodies of commands, run on the value that a context has at their key.

ghost use Rattle.std.specs.Prelude.{◌≡◌, ◌≤◌, length, Some, IfOk, OnOk, OnErr};
ghost use Rattle.std.specs.Option.{option_map, unwrap_or};
ghost use Rattle.core_types.specs.Keys.{value_at};
ghost use Rattle.core_types.specs.Limits.{IsWithinLimits};
ghost use Rattle.sequences.specs.Words.{word};
ghost use Rattle.module_laws.specs.Replay.{own_value};
ghost use Rattle.one_key.specs.Writing.{DoesWrite};
ghost use Rattle.one_key.specs.inner.Steps.{WroteAt, read_reply, with_change};

use crate::held::Held;
use crate::key_type::KeyType;
use crate::wrote::Wrote;
use core_types::{Args, Effect, NoMemory, NoteClass, Reply};
use module_laws::{Context, KeyFault, MutFault};
use std::alloc::Global;

/// Replies what a command that reads replies.
pub(crate) fn read<T: KeyType, C: Context<Held<T>>>(
    alloc: Global,
    ctx: &C,
    words: &Args,
) -> Result<Reply, NoMemory>
    requires key { 2 ≤ length words.now }
    ensures reply { IfOk result (λ reply. reply ≡ read_reply T.meaning words.now
        (own_value T.meaning.name (value_at (C.told ctx.now).seen.keys (word 1 words.now)))) }
{
    match ctx.native(words.word(1)) {
        Ok(held) => T::read(alloc, &held.value, words),
        Err(KeyFault::Empty) => T::read_absent(alloc, words),
        Err(KeyFault::NotOurs(_)) => T::other(alloc, words),
    }
}

/// Runs a command that writes on a value.
pub(crate) fn write_held<T: KeyType>(
    alloc: Global,
    held: &mut Held<T>,
    words: &Args,
) -> Result<Wrote<T::Value>, NoMemory>
    requires key { 2 ≤ length words.now }
    ensures does { IfOk result
        (λ wrote. DoesWrite T.saved wrote (Some held.old.value) (Some held.new.value)
        (T.meaning.writes (Some (T.saved held.old.value)) words.now)) }
    ensures err { OnErr result (held.new.value ≡ held.old.value) }
{
    T::write(alloc, &mut held.value, words)
}

/// Runs a command that writes on what its key has, and does not where that is of another kind.
pub(crate) fn write_at<T: KeyType, C: Context<Held<T>>>(
    alloc: Global,
    ctx: &mut C,
    words: &Args,
) -> Result<Option<Wrote<T::Value>>, NoMemory>
    requires key { 2 ≤ length words.now }
    ensures wrote { IfOk result (λ wrote. WroteAt T.meaning T.saved (word 1 words.now) words.now wrote
        (own_value T.meaning.name (value_at (C.told ctx.old).seen.keys (word 1 words.now)))
        (C.told ctx.old) (C.told ctx.new)) }
    ensures holds { C.held ctx.new ≡ C.held ctx.old }
    ensures typed { C.typed ctx.new ≡ C.typed ctx.old }
    ensures err { OnErr result (C.told ctx.new ≡ C.told ctx.old) }
{
    match ctx.native_mut(alloc, words.word(1)) {
        Ok(held) => Ok(Some(write_held(alloc, held, words)?)),
        Err(MutFault::Empty) => Ok(Some(T::write_absent(alloc, words)?)),
        Err(MutFault::NotOurs(_)) => Ok(None),
        Err(MutFault::Memory) => Err(NoMemory),
    }
}

/// Tells of a change: its event, that its key is gone where it is, and the words that make it
/// again, which are the command's own where there are no others.
pub(crate) fn tell<T: KeyType, C: Context<Held<T>>>(
    alloc: Global,
    ctx: &mut C,
    own: Effect,
    effect: Option<Effect>,
    event: &[u8],
    gone: bool,
) -> Result<(), NoMemory>
    requires key { 2 ≤ length own.words }
    requires small { IsWithinLimits (unwrap_or (option_map (λ e. e.words) effect) own.words) }
    ensures ok { OnOk result (C.told ctx.new ≡ with_change own.words
        (unwrap_or (option_map (λ e. e.words) effect) own.words) event.now gone (C.told ctx.old)) }
    ensures seen { (C.told ctx.new).seen ≡ (C.told ctx.old).seen }
    ensures added { (C.told ctx.new).added ≡ (C.told ctx.old).added }
    ensures holds { C.held ctx.new ≡ C.held ctx.old }
    ensures typed { C.typed ctx.new ≡ C.typed ctx.old }
{
    let key = own.words.word(1);
    ctx.notify(alloc, NoteClass::Module, event, key)?;
    if gone {
        ctx.notify(alloc, NoteClass::Generic, b"del", key)?;
    }
    match effect {
        Some(effect) => ctx.replicate(alloc, effect),
        None => ctx.replicate(alloc, own),
    }
}
