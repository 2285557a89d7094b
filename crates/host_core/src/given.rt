//! What serving gives, before the client is told.

ghost use Rattle.std.specs.Prelude.{◌≡◌, [], false};

use core_types::{Effects, Reply};
use std::alloc::Global;

// What serving a request gave.
#[derive(Debug, Drop)]
pub(crate) struct Given {
    // What the client is told.
    pub reply: Reply,
    // The changes of the keys.
    pub effects: Effects,
    // Whether the client is served no longer.
    pub closes: bool,
}

impl Given {
    // A reply and nothing else. Takes no memory.
    pub(crate) fn replying(alloc: Global, reply: Reply) -> Given
        ensures { result ≡ record { reply = reply; effects = []; closes = false } }
    {
        Given {
            reply,
            effects: Effects::new(alloc),
            closes: false,
        }
    }
}
