//! The rule of the lock's table, and the names of the steps on it.

ghost use Rattle.context_lock.specs.inner.Rule.{Kept, begun, both, ended, opening, raised, spent, split_left, split_right};

use crate::historic::Historic;
use crate::view::View;
use atomic_table::{Join, Play, Split, TableRule};

// The key is the number at which the history ended as the lock was made.
pub struct Turns;

impl<S: Historic> TableRule<Option<S>, View, u64> for Turns {
    ghost holds = { λ opened. Kept S.history opened };

    ghost first = { opening };
}

// The turn is taken, and the state with it.
pub(crate) struct Begin;

impl<S: Historic> Play<Option<S>, View> for Begin {
    ghost then = { begun S.history S.shows };
}

// The events that were added come into the history.
pub(crate) struct Raise;

impl<S: Historic> Play<Option<S>, View> for Raise {
    ghost then = { raised S.history S.shows };
}

// The turn is given back, and the state with it.
pub(crate) struct End;

impl<S> Play<Option<S>, View> for End {
    ghost then = { ended };
}

pub(crate) struct Cut;

impl Split<View> for Cut {
    ghost left = { split_left };

    ghost right = { split_right };
}

pub(crate) struct Glue;

impl Join<View> for Glue {
    ghost both = { both };

    ghost spent = { spent };
}
