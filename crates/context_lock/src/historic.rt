//! A state with a history.

ghost use Rattle.std.specs.Prelude.{◌≡◌, ◌^◌, ◌<◌};
ghost use Rattle.core_types.specs.Shown.{Shown};
ghost use Rattle.context_lock.specs.declared.view.History.{History};
ghost use Rattle.context_lock.specs.Histories.{end};

use core_types::Events;

/// A state that keeps the events that made it, with numbers, but for those at the front that it
/// has cut off.
pub trait Historic {
    /// The events that it keeps, and the number of the first of them.
    ghost history: { Self → History };

    /// What it shows to those that share it.
    ghost shows: { Self → Shown };

    /// The number of the first event that it keeps, or of the next where it keeps none. This and
    /// the number of events are at most 2^64 - 1 together.
    fn first(&self) -> u64
        ensures first { result ≡ (history self.now).first }
        ensures bounded { end (history self.now) < 2 ^ 64 };

    /// The events that it keeps, in order.
    fn events(&self) -> &Events
        ensures events { result.now ≡ (history self.now).events };

    /// It shows where its history begins and ends.
    ghost shows_history: { (s : Self) → ((shows s).first ≡ (history s).first) × ((shows s).end ≡ end (history s)) };
}

// The number at which the history ends.
pub(crate) fn end_of<S: Historic>(state: &S) -> u64
    ensures end { result ≡ end (S.history state.now) }
{
    state.first() + state.events().len() as u64
}
