//! A stay in a lock.

ghost use Rattle.std.specs.Prelude.{◌≡◌, ◌<◌, [], ◌∷◌, None};

use crate::historic::{Historic, end_of};
use crate::lock::ContextLock;
use crate::pass::Pass;
use crate::turns::{End, Raise};
use crate::view::View;
use atomic_table::Seat;

/// The turn of a lock, whose slot is empty meanwhile. Only the lock makes one, and only `leave`
/// gives it back.
pub struct Turn<'a, S: Historic> {
    pub(crate) lock: &'a ContextLock<S>,
    pub(crate) seat: Seat<Option<S>, View>,
    ghost seated: { seat.table_id ≡ lock.now.table.shared.table_id },
    ghost bare: { seat.me.1 ≡ (0, None) ∷ [] },
    ghost has: { seat.me.0.turn ≡ 1 },
    ghost parted: { 0 < seat.me.0.parts },
}

/// The turn of a lock, and its state, which the holder may change. Both are given back by
/// `leave`, which asks that the history of the state goes on from that at `enter`.
pub struct Inside<'a, S: Historic> {
    pub turn: Turn<'a, S>,
    pub state: S,
}

impl<'a, S: Historic> Inside<'a, S> {
    ghost use Rattle.context_lock.specs.Histories.{GoesOn};
    ghost use Rattle.context_lock.specs.Locks.{before, came, entered, state_of};
    ghost use Rattle.context_lock.specs.Passes.{left, stay_of};

    /// Gives the turn and the state back. The history of the state has to go on from that at
    /// `enter`: events are added at its end, and no event that was added is cut off. The pass then
    /// has seen the whole history, and its holder's events are those that it had, and behind them
    /// those that were added, at their numbers.
    pub fn leave(self) -> Pass
        requires goes_on { GoesOn (before self) (S.history (state_of self)) }
        ensures left { result ≡ left (before self.entry) (S.history (state_of self.entry))
            (stay_of (came self.entry) (S.shows (state_of self.entry))) (entered self.entry) }
    {
        let Inside { turn, state } = self;
        let Turn { lock, mut seat } = turn;
        let shared = &lock.table.shared;
        let end = end_of(&state);
        match shared.exchange(&mut seat, 0, Some(state)) {
            None => {}
            Some(_) => unreachable!(),
        }
        shared.store::<Raise>(&mut seat, 1, end);
        shared.store::<End>(&mut seat, 0, 0);
        lock.wake();
        Pass::of(seat)
    }

    /// `leave`, and rings the bells of these clients, and that of the workers where `workers` says
    /// so. The bells ring when the turn is free.
    pub fn leave_and_ring(self, clients: &[u64], workers: bool) -> Pass
        requires goes_on { GoesOn (before self) (S.history (state_of self)) }
        ensures left { result ≡ left (before self.entry) (S.history (state_of self.entry))
            (stay_of (came self.entry) (S.shows (state_of self.entry))) (entered self.entry) }
    {
        let lock = self.turn.lock;
        let pass = self.leave();
        for client in clients {
            lock.client_bell(*client).notify_all();
        }
        if workers {
            lock.worker_bell().notify_one();
        }
        pass
    }
}
