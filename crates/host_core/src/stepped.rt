//! What a step made.

ghost use Rattle.std.specs.Prelude.{◌≡◌, [], false};

use core_types::{Answer, Effects, Orders, Outs};
use std::alloc::Global;

/// What a step made, beside the state.
#[derive(Debug, Drop)]
pub struct Stepped {
    /// The replies with their clients, in order.
    pub out: Outs,
    /// The changes of the keys, as commands that make them again.
    pub effects: Effects,
    /// How the event was answered.
    pub answer: Answer,
    /// The tickets that were opened, with their jobs.
    pub fresh: Orders,
    /// Whether SAVE ran.
    pub save: bool,
}

impl Stepped {
    // Nobody is replied to, and no key was changed. Takes no memory.
    pub(crate) fn answered(alloc: Global, answer: Answer) -> Stepped
        ensures quiet { result ≡ record {
          out = [];
          effects = [];
          answer = answer;
          fresh = [];
          save = false;
        } }
    {
        Stepped {
            out: Outs::new(alloc),
            effects: Effects::new(alloc),
            answer,
            fresh: Orders::new(alloc),
            save: false,
        }
    }
}
