// A state that keeps all its events.

ghost use Rattle.std.specs.Prelude.{refl};
ghost use Rattle.lock_tests.specs.Tapes.{history_of, shown_of};

use context_lock::Historic;
use core_types::{Event, Events};

#[derive(Drop)]
pub struct Tape {
    pub events: Events,
}

impl Historic for Tape {
    ghost history = { history_of };

    ghost shows = { shown_of };

    ghost shows_history = { λ s. (refl, refl) };

    fn first(&self) -> u64 {
        let _kept = self.events.len();
        0
    }

    fn events(&self) -> &Events {
        &self.events
    }
}

// The events of a client.
pub fn of(tape: &Tape, client: u64) -> u64 {
    let mut count: u64 = 0;
    for event in tape.events.as_slice() {
        if let Event::Join(number) = event {
            if *number == client {
                count = count.saturating_add(1);
            }
        }
    }
    count
}
