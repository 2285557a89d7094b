//! What a command gave.

ghost use Rattle.std.specs.Prelude.{◌≡◌, ◌<◌, ◌^◌, [], ◌∷◌, pos, length, IfOk};
ghost use Rattle.core_types.specs.Done.{own_words};
ghost use Rattle.core_types.specs.Refusals.{refused};
ghost use Rattle.key_cmds.specs.SeveralKeys.{generic_note, ok};

use core_types::{Args, Blob, Effect, Effects, NoMemory, Note, NoteClass, Notes, Refusal, Reply};
use std::alloc::Global;

/// What a command gave, beside the keys.
#[derive(Debug, Drop)]
pub struct Ran {
    /// What the client is answered.
    pub reply: Reply,
    /// The changes, as commands that make them again.
    pub effects: Effects,
    /// The events, in order.
    pub notes: Notes,
}

impl Ran {
    // Nothing changed, and this is replied. Takes no memory.
    pub(crate) fn answer(alloc: Global, reply: Reply) -> Ran
        ensures answers { result ≡ record { reply = reply; effects = []; notes = [] } }
    {
        Ran {
            reply,
            effects: Effects::new(alloc),
            notes: Notes::new(alloc),
        }
    }

    // Nothing changed, and the reply is this error.
    pub(crate) fn refuse(alloc: Global, refusal: Refusal) -> Result<Ran, NoMemory>
        ensures refuses { IfOk result
            (λ ran. ran ≡ record { reply = refused refusal; effects = []; notes = [] }) }
    {
        Ok(Ran::answer(alloc, refusal.reply(alloc)?))
    }

    // A change that one effect makes again, and of which one note tells.
    pub(crate) fn change(
        alloc: Global,
        reply: Reply,
        effect: Effect,
        note: Note,
    ) -> Result<Ran, NoMemory>
        ensures changes { IfOk result
            (λ ran. ran ≡ record { reply = reply; effects = effect ∷ []; notes = note ∷ [] }) }
    {
        let mut notes = Notes::new(alloc);
        notes.push(note)?;
        Ok(Ran {
            reply,
            effects: one(alloc, effect)?,
            notes,
        })
    }
}

// One change.
pub(crate) fn one(alloc: Global, effect: Effect) -> Result<Effects, NoMemory>
    ensures { IfOk result (λ effects. effects ≡ effect ∷ []) }
{
    let mut effects = Effects::new(alloc);
    effects.push(effect)?;
    Ok(effects)
}

// One change, by the words of the command itself.
pub(crate) fn own_change(alloc: Global, name: &[u8], words: &Args) -> Result<Effects, NoMemory>
    requires { 0 < length words.now }
    ensures { IfOk result (λ effects. effects ≡ own_words name.now words.now ∷ []) }
{
    one(alloc, Effect::own_words(alloc, name, words)?)
}

// An event of any type of key.
pub(crate) fn generic_note(alloc: Global, name: &[u8], key: &[u8]) -> Result<Note, NoMemory>
    ensures { IfOk result (λ note. note ≡ generic_note name.now key.now) }
{
    Ok(Note {
        class: NoteClass::Generic,
        name: Blob::from_slice(alloc, name)?,
        key: Blob::from_slice(alloc, key)?,
    })
}

// A number.
pub(crate) fn counted(count: usize) -> Reply
    requires { count < 2 ^ 63 }
    ensures { result ≡ Reply.Int (pos count) }
{
    Reply::Int(count as i64)
}

// `+OK`.
pub(crate) fn ok(alloc: Global) -> Result<Reply, NoMemory>
    ensures { IfOk result (λ reply. reply ≡ ok) }
{
    Reply::simple(alloc, b"OK")
}
