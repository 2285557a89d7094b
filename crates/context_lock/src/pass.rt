//! The right to enter a lock, and what its holder knows.

ghost use Rattle.std.specs.Prelude.{◌≡◌, []};
ghost use Rattle.context_lock.specs.inner.Seats.{IsOut, held_of};

use crate::view::View;
use atomic_table::{Badge, Seat};
use std::marker::Model;

/// The right to enter the lock that gave it. It has no bytes. Contracts see it as what its holder
/// knows: which lock it is of, how many events it has seen, its parts, the events that its holder
/// added, with their numbers, and its holder's stays.
#[derive(Drop)]
pub struct Pass {
    badge: Badge<View>,
}

impl Model for Pass {
    ghost use Rattle.context_lock.specs.Passes.{Held, held_code};

    ghost Value = { Held };

    ghost coded = { held_code };

    ghost use Rattle.context_lock.specs.inner.Seats.{IsPass, held};

    ghost view = { λ p. held p.badge.table_id p.badge.views };

    ghost invariant = { λ p. IsPass p.badge.views };
}

impl Pass {
    pub(crate) fn of<S>(seat: Seat<Option<S>, View>) -> Pass
        requires { (seat.me.1 ≡ []) × IsOut seat.me.0 }
        ensures held { result ≡ held_of seat.table_id seat.me.0 }
    {
        let badge = seat.into_badge();
        Pass { badge }
    }

    pub(crate) fn into_seat<S>(self) -> Seat<Option<S>, View>
        ensures held { held_of result.table_id result.me.0 ≡ self }
        ensures out { (result.me.1 ≡ []) × IsOut result.me.0 }
    {
        let Pass { badge } = self;
        badge.into_seat()
    }
}
