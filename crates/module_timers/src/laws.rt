//! Laws on the timers, each the contract of a function without a body.

ghost use Rattle.module_timers.specs.Laws.{FirstIsDue};

/// The due timer is set and below the number asked for, its deadline has come, and no other such
/// timer has an earlier deadline, or the same and a lower number. Where none is due there is none
/// such.
pub fn the_first_is_due()
    ensures { FirstIsDue }
{}
