//! What a command on one key did.

ghost use Rattle.std.specs.Prelude.{◌≡◌, [], ◌∷◌, Option, IfOk};
ghost use Rattle.core_types.specs.Refusals.{refused};

use crate::{Effect, Effects, NoMemory, Note, Notes, Refusal, Reply, Sequence};
use std::alloc::Global;

/// What is to become of the key's value.
#[derive(Debug, Drop)]
pub enum After<B> {
    /// It stays, or was changed in place.
    Keep,
    /// The key gets this value, in place of what it had.
    Put(B),
    /// The key is removed.
    Remove,
}

/// The result of a command on one key.
#[derive(Debug, Drop)]
pub struct Outcome<B> {
    /// What becomes of the value.
    pub body: After<B>,
    /// What the client is answered.
    pub reply: Reply,
    /// The changes, as commands that make them again.
    pub effects: Effects,
    /// The events, in order.
    pub notes: Notes,
}

impl<B: Drop> Outcome<B> {
    /// Nothing changes, and this is replied. Takes no memory.
    pub fn answer(alloc: Global, reply: Reply) -> Outcome<B>
        ensures answers { result
            ≡ record { body = After.Keep; reply = reply; effects = []; notes = [] } }
    {
        Outcome {
            body: After::Keep,
            reply,
            effects: Sequence::new(alloc),
            notes: Sequence::new(alloc),
        }
    }

    /// Nothing changes, and the reply is this error.
    pub fn refuse(alloc: Global, refusal: Refusal) -> Result<Outcome<B>, NoMemory>
        ensures refuses { IfOk result (λ o. o
            ≡ record { body = After.Keep; reply = refused refusal; effects = []; notes = [] }) }
    {
        Ok(Outcome::answer(alloc, refusal.reply(alloc)?))
    }

    /// A change that one effect makes again, and of which one note tells.
    pub fn change(
        alloc: Global,
        body: After<B>,
        reply: Reply,
        effect: Effect,
        note: Note,
    ) -> Result<Outcome<B>, NoMemory>
        ensures changes { IfOk result (λ o. o
            ≡ record { body = body; reply = reply; effects = effect ∷ []; notes = note ∷ [] }) }
    {
        let effects = only(alloc, effect)?;
        let notes = only(alloc, note)?;
        Ok(Outcome {
            body,
            reply,
            effects,
            notes,
        })
    }
}

// A list of one item.
fn only<T: Drop>(alloc: Global, item: T) -> Result<Sequence<T>, NoMemory>
    ensures only { IfOk result (λ items. items ≡ item ∷ []) }
{
    let mut items = Sequence::new(alloc);
    items.push(item)?;
    Ok(items)
}
