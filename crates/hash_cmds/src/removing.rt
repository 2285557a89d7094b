//! HDEL: it takes out fields.

ghost use Rattle.std.specs.Prelude.{◌≡◌, ◌<◌, ◌≤◌, ◌+◌, ◌-◌, ◌^◌, ◌∷◌, [], pos, codes, length, Some, IfOk, OnOk, OnErr};
ghost use Rattle.core_types.specs.Done.{Does, del_note, own_words};
ghost use Rattle.core_types.specs.declared.note.Note.{Note};
ghost use Rattle.core_types.specs.Fields.{without_fields};
ghost use Rattle.hash_cmds.specs.Removing.{remove_fields};
ghost use Rattle.hash_cmds.specs.Words.{hash_note};

use crate::words::hash_note;
use core_types::{
    After, Args, Effect, Effects, HashBody, NoMemory, Note, NoteClass, Notes, Outcome, Reply, Words,
};
use std::alloc::Global;

/// `HDEL k f ..`: the number of fields that were there is answered, and an empty hash is not kept.
pub(crate) fn remove_fields(
    alloc: Global,
    hash: &mut HashBody,
    words: &Args,
) -> Result<Outcome<HashBody>, NoMemory>
    requires { 2 ≤ length words.now }
    ensures does { IfOk result
        (λ o. Does o (Some hash.old) (Some hash.new) (remove_fields hash.old words.now)) }
    ensures err { OnErr result (hash.new ≡ hash.old) }
{
    let (effects, notes) = told(alloc, words)?;
    let count = take_out(alloc, hash, words.from_place(2))?;
    if count == 0 {
        return Ok(Outcome::answer(alloc, Reply::Int(0)));
    }
    let reply = Reply::Int(count);
    if hash.is_empty() {
        Ok(Outcome {
            body: After::Remove,
            reply,
            effects,
            notes,
        })
    } else {
        Ok(Outcome {
            body: After::Keep,
            reply,
            effects,
            notes: without_last(notes),
        })
    }
}

// The effect, and the events where the last field goes and the key with it.
fn told(alloc: Global, words: &Args) -> Result<(Effects, Notes), NoMemory>
    requires { 1 < length words.now }
    ensures effects { IfOk result (λ both. both.0 ≡ own_words (codes "HDEL") words.now ∷ []) }
    ensures notes { IfOk result (λ both. both.1 ≡ hash_note (codes "hdel") words.now
        ∷ del_note words.now ∷ []) }
{
    let mut effects = Effects::new(alloc);
    effects.push(Effect::own_words(alloc, b"HDEL", words)?)?;
    let mut notes = Notes::new(alloc);
    notes.push(hash_note(alloc, b"hdel", words)?)?;
    notes.push(Note::on_key(alloc, NoteClass::Generic, b"del", words)?)?;
    Ok((effects, notes))
}

// The first of two events.
fn without_last(notes: Notes) -> Notes
    ensures { (first second : Note) → notes ≡ first ∷ second ∷ [] → result ≡ first ∷ [] }
{
    let mut notes = notes;
    notes.pop();
    notes
}

// Takes out the fields of these names: how many there were.
fn take_out(alloc: Global, hash: &mut HashBody, names: Words<'_>) -> Result<i64, NoMemory>
    ensures left { OnOk result (hash.new ≡ without_fields hash.old names.entry) }
    ensures count { IfOk result (λ n. n ≡ pos (length hash.old - length hash.new)) }
    ensures err { OnErr result (hash.new ≡ hash.old) }
{
    let before = hash.len();
    hash.remove_all(alloc, names)?;
    Ok((before - hash.len()) as i64)
}
