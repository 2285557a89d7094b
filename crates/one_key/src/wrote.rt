//! What the body of a command that writes did.

ghost use Rattle.std.specs.Prelude.{◌≡◌, Some, None, IfOk};
ghost use Rattle.core_types.specs.Refusals.{refused};

use core_types::{After, Effect, NoMemory, Refusal, Reply};
use std::alloc::Global;

/// How a command changed its key.
#[derive(Debug, Drop)]
pub struct Change<V> {
    /// What becomes of the value. `Keep` says that it was changed in place, and `Remove` that it was
    /// not. `Put` is for a key that had none.
    pub after: After<V>,
    /// The words that make the change again, where they are others than the command's own.
    pub effect: Option<Effect>,
    /// The name of the event that tells of the change.
    pub event: &'static [u8],
}

/// What a command that writes did.
#[derive(Debug, Drop)]
pub struct Wrote<V> {
    /// What the client is answered.
    pub reply: Reply,
    /// How the key changed, where it did.
    pub change: Option<Change<V>>,
}

impl<V: Drop> Wrote<V> {
    /// Nothing changes, and this is replied.
    pub fn answer(reply: Reply) -> Wrote<V>
        ensures answers { result ≡ record { reply = reply; change = None } }
    {
        Wrote {
            reply,
            change: None,
        }
    }

    /// Nothing changes, and the reply is this error.
    pub fn refuse(alloc: Global, refusal: Refusal) -> Result<Wrote<V>, NoMemory>
        ensures refuses { IfOk result
            (λ wrote. wrote ≡ record { reply = refused refusal; change = None }) }
    {
        Ok(Wrote::answer(refusal.reply(alloc)?))
    }

    /// A change that the command's own words make again.
    pub fn change(after: After<V>, event: &'static [u8], reply: Reply) -> Wrote<V>
        ensures changes { result ≡ record {
          reply = reply;
          change = Some (record { after = after; effect = None; event = event.entry });
        } }
    {
        Wrote {
            reply,
            change: Some(Change {
                after,
                effect: None,
                event,
            }),
        }
    }

    /// A change that this effect makes again.
    pub fn change_by(
        after: After<V>,
        effect: Effect,
        event: &'static [u8],
        reply: Reply,
    ) -> Wrote<V>
        ensures changes { result ≡ record {
          reply = reply;
          change = Some (record { after = after; effect = Some effect; event = event.entry });
        } }
    {
        Wrote {
            reply,
            change: Some(Change {
                after,
                effect: Some(effect),
                event,
            }),
        }
    }
}
