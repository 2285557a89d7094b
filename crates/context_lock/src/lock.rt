//! The lock.

ghost use Rattle.std.specs.Prelude.{◌≡◌, ℕ, ◌-◌, ◌≤◌, [], ◌∷◌, Some, IfOk, IfErr};

use crate::bells::Bells;
use crate::historic::{Historic, end_of};
use crate::inside::{Inside, Turn};
use crate::pass::Pass;
use crate::turns::{Begin, Cut, Glue, Turns};
use crate::view::View;
use atomic_table::{Refused, Table};
use crossbeam_utils::sync::EventCount;
use std::alloc::Global;
use std::hint::spin_loop;
use std::sync::Wait;
use std::sync::atomic::AtomicU64;
use std::sync::atomic::Ordering::SeqCst;

// Looks at the turn before a thread parks.
const SPINS: u32 = 300;

/// A state that threads share. Who has a pass may enter, one at a time.
pub struct ContextLock<S: Historic> {
    pub(crate) table: Table<Option<S>, View, u64, Turns, Global>,
    // How many threads park until the turn is free, or are about to.
    waiting: AtomicU64,
    bells: Bells,
    ghost sized: { (table.shared.table_id.words ≡ 2) × (table.shared.table_id.slots ≡ 1) },
}

// The one value of the list.
fn only<S>(mut slots: Vec<Option<S>>) -> S
    requires { (state : S) × (slots.items ≡ Some state ∷ []) }
    ensures only { slots.items ≡ Some result ∷ [] }
{
    let Some(Some(state)) = slots.pop() else {
        unreachable!()
    };
    slots.destroy_empty();
    state
}

impl<S: Historic> ContextLock<S> {
    ghost use Rattle.context_lock.specs.Histories.{end};
    ghost use Rattle.context_lock.specs.Locks.{Comes, lock_id, opened};
    ghost use Rattle.context_lock.specs.Pairs.{once_within, times};
    ghost use Rattle.context_lock.specs.Passes.{Fits, fresh, joined};

    /// A lock of the state, and the first pass, with all 1,048,576 parts. The state is handed back
    /// where memory ran out.
    pub fn new(alloc: Global, state: S) -> Result<(ContextLock<S>, Pass), S>
        ensures opened { IfOk result (λ made. opened made.0 ≡ end (S.history state)) }
        ensures pass { IfOk result (λ made. made.1 ≡ record {
          lock = lock_id made.0;
          seen = end (S.history state);
          parts = 1048576;
          mine = [];
          stays = [];
        }) }
        ensures back { IfErr result (λ back. back ≡ state) }
    {
        let opened = end_of(&state);
        let Ok(bells) = Bells::new(alloc) else {
            return Err(state);
        };
        let Ok(mut slots) = Vec::with_capacity(alloc, 1) else {
            return Err(state);
        };
        slots.push_reserved(Some(state));
        match Table::new(alloc, &[0, opened], slots, &opened) {
            Ok((table, seat)) => {
                let waiting = AtomicU64::new(0);
                let lock = ContextLock {
                    table,
                    waiting,
                    bells,
                };
                Ok((lock, Pass::of(seat)))
            }
            Err(Refused { slots }) => Err(only(slots)),
        }
    }

    // The turn and the state, where the turn is free.
    fn try_enter(&self, pass: Pass) -> Result<Inside<'_, S>, Pass>
        requires lock { pass.lock ≡ lock_id self.now }
        ensures comes { IfOk result (λ inside. Comes S.history S.shows pass inside) }
        ensures back { IfErr result (λ back. back ≡ pass) }
    {
        let mut seat = pass.into_seat::<S>();
        let shared = &self.table.shared;
        if shared.compare_exchange::<Begin>(&mut seat, 0, 0, 1) != 0 {
            return Err(Pass::of(seat));
        }
        let state = shared.exchange(&mut seat, 0, None).unwrap();
        let turn = Turn { lock: self, seat };
        Ok(Inside { turn, state })
    }

    // The same, with some hundred looks at the turn.
    fn spin(&self, pass: Pass) -> Result<Inside<'_, S>, Pass>
        requires lock { pass.lock ≡ lock_id self.now }
        ensures comes { IfOk result (λ inside. Comes S.history S.shows pass inside) }
        ensures back { IfErr result (λ back. back ≡ pass) }
    {
        for _ in 0..SPINS {
            if self.table.shared.peek(0) == 0 {
                return self.try_enter(pass);
            }
            spin_loop();
        }
        Err(pass)
    }

    // Tries, and parks where the turn is not free, until it has the turn. The thread is counted
    // before it tries. So who gives the turn back either finds it counted and wakes one, or gave
    // the turn back before the try.
    fn park<R: Wait>(&self, rt: &R, pass: Pass) -> Inside<'_, S>
        requires lock { pass.lock ≡ lock_id self.now }
        ensures comes { Comes S.history S.shows pass result }
    {
        self.waiting.fetch_add(1, SeqCst);
        let mut pass = pass;
        for _ in rt.forever() {
            pass = match self.try_enter(pass) {
                Ok(inside) => {
                    self.waiting.fetch_sub(1, SeqCst);
                    return inside;
                }
                Err(pass) => pass,
            };
            self.table.shared.park(rt, 0, 1);
        }
        unreachable!()
    }

    /// Waits for the turn, and takes it with the state. All that the pass has seen stands in the
    /// state's history, and what its holder added, at its numbers, but for what was cut off. A
    /// thread that waits for long sleeps.
    pub fn enter<R: Wait>(&self, rt: &R, pass: Pass) -> Inside<'_, S>
        requires lock { pass.lock ≡ lock_id self.now }
        ensures comes { Comes S.history S.shows pass result }
    {
        match self.spin(pass) {
            Ok(inside) => inside,
            Err(pass) => self.park(rt, pass),
        }
    }

    // Wakes one thread that parks until the turn is free, if there is one.
    pub(crate) fn wake(&self) {
        if self.waiting.load(SeqCst) != 0 {
            self.table.shared.wake_one(0);
        }
    }

    /// The bell of a client, which it shares with those whose numbers are alike modulo 1,024. Take
    /// the key before a stay, and wait after a stay that found nothing to do.
    pub fn client_bell(&self, client: u64) -> &EventCount {
        self.bells.client(client)
    }

    /// The bell of the workers.
    pub fn worker_bell(&self) -> &EventCount {
        self.bells.workers()
    }

    /// The first pass keeps all parts but one, and the second has one, and has seen as much.
    pub fn split(&self, pass: Pass) -> (Pass, Pass)
        requires lock { pass.lock ≡ lock_id self.now }
        requires parts { 2 ≤ pass.parts }
        ensures first { result.0 ≡ record pass { parts = pass.parts - 1 } }
        ensures second { result.1 ≡ fresh pass }
    {
        let mut seat = pass.into_seat::<S>();
        let other = self.table.shared.split_seat::<Cut>(&mut seat);
        (Pass::of(seat), Pass::of(other))
    }

    /// One pass of two: it has seen what each of them has, and has the parts, events and stays of
    /// both.
    pub fn join(&self, a: Pass, b: Pass) -> Pass
        requires locks { (a.lock ≡ lock_id self.now) × (b.lock ≡ lock_id self.now) }
        ensures joined { result ≡ joined a b }
    {
        let mut seat = a.into_seat::<S>();
        self.table
            .shared
            .join_seat::<Glue>(&mut seat, b.into_seat::<S>());
        Pass::of(seat)
    }

    /// The state, where all passes were joined into one.
    pub fn close(self, pass: Pass) -> S
        requires lock { pass.lock ≡ lock_id self }
        requires parts { pass.parts ≡ 1048576 }
        ensures fits { Fits (S.history result) pass }
        ensures once { (number : ℕ) → times number pass.mine
            ≡ once_within (opened self) (end (S.history result)) number }
    {
        let ContextLock {
            table,
            waiting: _,
            bells: _,
        } = self;
        let mut closed = table.close_with(pass.into_seat::<S>());
        let state = closed.take(0).unwrap();
        closed.free();
        state
    }
}
