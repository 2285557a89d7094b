//! The commands on the moment at which a key is due, and the removal of a key that is due.

ghost use Rattle.std.specs.Prelude.{◌≡◌, ◌<◌, ◌++◌, [], pos, negsuc, length, None, Some, IsSome, is_some, IfOk, IfSome, OnOk, OnErr, if◌then◌else◌};
ghost use Rattle.std.specs.Option.{option_map};
ghost use Rattle.core_types.specs.Keys.{value_at};
ghost use Rattle.key_cmds.specs.Deadlines.{delete_effect, expire, expire_at, expire_when, expired_note, expires_now, first_expired, gets_deadline, is_past, milliseconds_told, moment_of, persist, seconds_left, tell_left};
ghost use Rattle.key_cmds.specs.Run.{told};
ghost use Rattle.key_cmds.specs.Leaving.{HasExpired, expired_told};

use crate::Ran;
use crate::ran::generic_note;
use crate::settling::{hand_over, make_room};
use byte_text::{read_i64, u64_text};
use core_types::{Args, Blob, Effect, NoMemory, Note, NoteClass, Refusal, Reply, invalid_expire};
use key_store::KeyStore;
use std::alloc::Global;

/// The removal of a key that was due.
#[derive(Debug, Drop)]
pub struct ExpiredKey {
    /// The change, as a command that makes it again.
    pub effect: Effect,
    /// The event.
    pub note: Note,
}

/// Removes the key that is due first at this moment in milliseconds, or gives `None` where no key
/// is due. The value of a module that it had goes to the end of `left`. An `Err` changes nothing.
pub fn expire_first<N>(
    alloc: Global,
    keys: &mut KeyStore<N>,
    moment: u64,
    left: &mut Vec<N>,
) -> Result<Option<ExpiredKey>, NoMemory>
    ensures removes { OnOk result (HasExpired (first_expired keys.old moment)
        (record { keys = keys.old; left = left.old.items })
        (record { keys = keys.new; left = left.new.items })) }
    ensures told { IfOk result
        (λ given. given ≡ option_map expired_told (first_expired keys.old moment)) }
    ensures err { OnErr result ((keys.new ≡ keys.old) × (left.new.items ≡ left.old.items)) }
{
    let Some(due) = keys.next_due(moment) else {
        return Ok(None);
    };
    let expired = ExpiredKey {
        effect: delete_effect(alloc, due)?,
        note: expired_note(alloc, due)?,
    };
    let key = expired.note.key.as_slice();
    make_room(keys.get(key), left)?;
    hand_over(keys.take(key), left);
    Ok(Some(expired))
}

fn expired_note(alloc: Global, key: &[u8]) -> Result<Note, NoMemory>
    ensures { IfOk result (λ note. note ≡ expired_note key.now) }
{
    Ok(Note {
        class: NoteClass::Expired,
        name: Blob::from_slice(alloc, b"expired")?,
        key: Blob::from_slice(alloc, key)?,
    })
}

// `DEL k`.
fn delete_effect(alloc: Global, key: &[u8]) -> Result<Effect, NoMemory>
    ensures { IfOk result (λ effect. effect ≡ delete_effect key.now) }
{
    let mut words = Args::new(alloc);
    words.push(b"DEL")?;
    words.push(key)?;
    Ok(Effect { words })
}

/// `EXPIRE key seconds`: the key is due after this time.
pub(crate) fn expire<N>(
    alloc: Global,
    keys: &mut KeyStore<N>,
    moment: u64,
    words: &Args,
    left: &mut Vec<N>,
) -> Result<Ran, NoMemory>
    requires { length words.now ≡ 3 }
    ensures keys { OnOk result (keys.new ≡ (expire moment keys.old words.now).keys) }
    ensures told { IfOk result (λ ran. ran ≡ told (expire moment keys.old words.now)) }
    ensures left { OnOk result
        (left.new.items ≡ left.old.items ++ (expire moment keys.old words.now).left) }
    ensures err { OnErr result ((keys.new ≡ keys.old) × (left.new.items ≡ left.old.items)) }
{
    let Some(seconds) = read_i64(words.word(2)) else {
        return Ran::refuse(alloc, Refusal::NotAnInteger);
    };
    let deadline = i128::from(moment) + i128::from(seconds) * 1000;
    match i64::try_from(deadline) {
        Ok(deadline) => expire_at(alloc, keys, moment, words.word(1), deadline, left),
        Err(_) => Ok(Ran::answer(alloc, invalid_expire(alloc, b"EXPIRE")?)),
    }
}

/// `PEXPIREAT key milliseconds`: the key is due at this moment.
pub(crate) fn expire_when<N>(
    alloc: Global,
    keys: &mut KeyStore<N>,
    moment: u64,
    words: &Args,
    left: &mut Vec<N>,
) -> Result<Ran, NoMemory>
    requires { length words.now ≡ 3 }
    ensures keys { OnOk result (keys.new ≡ (expire_when moment keys.old words.now).keys) }
    ensures told { IfOk result (λ ran. ran ≡ told (expire_when moment keys.old words.now)) }
    ensures left { OnOk result
        (left.new.items ≡ left.old.items ++ (expire_when moment keys.old words.now).left) }
    ensures err { OnErr result ((keys.new ≡ keys.old) × (left.new.items ≡ left.old.items)) }
{
    match read_i64(words.word(2)) {
        Some(deadline) => expire_at(alloc, keys, moment, words.word(1), deadline, left),
        None => Ran::refuse(alloc, Refusal::NotAnInteger),
    }
}

// A key that is there is due at a moment, or goes where that is past.
fn expire_at<N>(
    alloc: Global,
    keys: &mut KeyStore<N>,
    moment: u64,
    key: &[u8],
    deadline: i64,
    left: &mut Vec<N>,
) -> Result<Ran, NoMemory>
    ensures keys { OnOk result (keys.new ≡ (expire_at moment key.now deadline keys.old).keys) }
    ensures told { IfOk result (λ ran. ran ≡ told (expire_at moment key.now deadline keys.old)) }
    ensures left { OnOk result
        (left.new.items ≡ left.old.items ++ (expire_at moment key.now deadline keys.old).left) }
    ensures err { OnErr result ((keys.new ≡ keys.old) × (left.new.items ≡ left.old.items)) }
{
    if keys.get(key).is_none() {
        return Ok(Ran::answer(alloc, Reply::Int(0)));
    }
    match later(deadline, moment) {
        Some(deadline) => set_deadline(alloc, keys, key, deadline),
        None => expire_now(alloc, keys, key, left),
    }
}

// The deadline, where it is not past.
fn later(deadline: i64, moment: u64) -> Option<u64>
    ensures later { result ≡ (if is_past deadline moment then None else Some (moment_of deadline)) }
    ensures positive { IfSome result (λ later. 0 < later) }
{
    match u64::try_from(deadline) {
        Ok(deadline) if deadline > moment => Some(deadline),
        _ => None,
    }
}

fn set_deadline<N>(
    alloc: Global,
    keys: &mut KeyStore<N>,
    key: &[u8],
    deadline: u64,
) -> Result<Ran, NoMemory>
    requires there { IsSome (value_at keys.old key.now) }
    requires positive { 0 < deadline }
    ensures keys { OnOk result (keys.new ≡ (gets_deadline key.now deadline keys.old).keys) }
    ensures told { IfOk result (λ ran. ran ≡ told (gets_deadline key.now deadline keys.old)) }
    ensures err { OnErr result (keys.new ≡ keys.old) }
{
    let decimal = u64_text(deadline);
    let effect = Effect::on_key(alloc, b"PEXPIREAT", key, decimal.as_slice())?;
    let note = generic_note(alloc, b"expire", key)?;
    let ran = Ran::change(alloc, Reply::Int(1), effect, note)?;
    keys.set_deadline(key, Some(deadline))?;
    Ok(ran)
}

fn expire_now<N>(
    alloc: Global,
    keys: &mut KeyStore<N>,
    key: &[u8],
    left: &mut Vec<N>,
) -> Result<Ran, NoMemory>
    ensures keys { OnOk result (keys.new ≡ (expires_now key.now keys.old).keys) }
    ensures told { IfOk result (λ ran. ran ≡ told (expires_now key.now keys.old)) }
    ensures left { OnOk result
        (left.new.items ≡ left.old.items ++ (expires_now key.now keys.old).left) }
    ensures err { OnErr result ((keys.new ≡ keys.old) × (left.new.items ≡ left.old.items)) }
{
    let effect = delete_effect(alloc, key)?;
    let note = generic_note(alloc, b"del", key)?;
    let ran = Ran::change(alloc, Reply::Int(1), effect, note)?;
    make_room(keys.get(key), left)?;
    hand_over(keys.take(key), left);
    Ok(ran)
}

/// `TTL key`: the seconds until a key is due, half a second counting as one.
pub(crate) fn tell_seconds<N>(alloc: Global, keys: &KeyStore<N>, moment: u64, words: &Args) -> Ran
    requires { length words.now ≡ 2 }
    ensures { result ≡ told (tell_left (seconds_left moment) keys.now words.now) }
{
    let key = words.word(1);
    match keys.deadline(key) {
        Some(deadline) => Ran::answer(alloc, Reply::Int(seconds_left(moment, deadline))),
        None => Ran::answer(alloc, Reply::Int(no_deadline(keys, key))),
    }
}

/// `PTTL key`: the milliseconds until a key is due.
pub(crate) fn tell_milliseconds<N>(
    alloc: Global,
    keys: &KeyStore<N>,
    moment: u64,
    words: &Args,
) -> Ran
    requires { length words.now ≡ 2 }
    ensures { result ≡ told (tell_left (milliseconds_told moment) keys.now words.now) }
{
    let key = words.word(1);
    match keys.deadline(key) {
        Some(deadline) => Ran::answer(alloc, Reply::Int(milliseconds_told(moment, deadline))),
        None => Ran::answer(alloc, Reply::Int(no_deadline(keys, key))),
    }
}

fn seconds_left(moment: u64, deadline: u64) -> i64
    ensures { result ≡ pos (seconds_left moment deadline) }
{
    ((u128::from(deadline.saturating_sub(moment)) + 500) / 1000) as i64
}

fn milliseconds_told(moment: u64, deadline: u64) -> i64
    ensures { result ≡ pos (milliseconds_told moment deadline) }
{
    deadline.saturating_sub(moment).min(i64::MAX as u64) as i64
}

// What is told of a key without a deadline.
fn no_deadline<N>(keys: &KeyStore<N>, key: &[u8]) -> i64
    ensures { result ≡ (if is_some (value_at keys.now key.now) then negsuc 0 else negsuc 1) }
{
    if keys.get(key).is_some() { -1 } else { -2 }
}

/// `PERSIST key`: the key is due no more.
pub(crate) fn persist<N>(
    alloc: Global,
    keys: &mut KeyStore<N>,
    words: &Args,
) -> Result<Ran, NoMemory>
    requires { length words.now ≡ 2 }
    ensures keys { OnOk result (keys.new ≡ (persist keys.old words.now).keys) }
    ensures told { IfOk result (λ ran. ran ≡ told (persist keys.old words.now)) }
    ensures err { OnErr result (keys.new ≡ keys.old) }
{
    let key = words.word(1);
    if keys.deadline(key).is_none() {
        return Ok(Ran::answer(alloc, Reply::Int(0)));
    }
    let effect = Effect::own_words(alloc, b"PERSIST", words)?;
    let note = generic_note(alloc, b"persist", key)?;
    let ran = Ran::change(alloc, Reply::Int(1), effect, note)?;
    keys.set_deadline(key, None)?;
    Ok(ran)
}
