//! What holds of every step.

ghost use Rattle.std.specs.Prelude.{◌≡◌, ℕ, Bool, List, Ok};
ghost use Rattle.core_types.specs.Keys.{Keys, Native};
ghost use Rattle.core_types.specs.Keyspace.{IsKeyspace};
ghost use Rattle.core_types.specs.declared.effect.Effect.{Effect};
ghost use Rattle.core_types.specs.declared.event.Event.{Event};
ghost use Rattle.effect_log.specs.Unit.{IsReplayable};
ghost use Rattle.host_core.specs.Builtins.{builtins, known_commands};
ghost use Rattle.host_core.specs.Core.{IsServable};
ghost use Rattle.host_core.specs.Events.{step};
ghost use Rattle.host_core.specs.Laws.{AllAreKnown, AllJoined, CanTake, GoesOn, KeepsLimits};
ghost use Rattle.host_core.specs.Laws.{LeavesNoneDue, RefusesOthers, RemakesKeys, RepliesToNobody};
ghost use Rattle.host_core.specs.Laws.{StepsApart, TellsReplies};
ghost use Rattle.host_core.specs.Replay.{replay};
ghost use Rattle.host_core.specs.State.{State, Step};

use crate::Builtin;

/// Each command is found by its name, the list has each, and there are 52.
#[tactic(auto, unfolding(crate::specs::Builtins::known_commands))]
pub fn commands_are_known()
    ensures found { AllAreKnown }
    ensures listed { Builtin.ALL ≡ builtins }
    ensures count { known_commands ≡ 52 }
{}

/// What is no command, or may not stand in a log, is no effect.
pub fn others_are_no_changes()
    ensures others { (keys : Keys) (effect : Effect) → RefusesOthers keys effect }
{}

/// A client that stays is told what was replied to it, in order, and nothing else; nobody is
/// replied to who is not there.
pub fn replies_are_told()
    ensures told { (state : State) (event : Event) → AllJoined state → TellsReplies state event }
    ensures joined { (state : State) (event : Event) → AllJoined state
        → AllJoined (step state event).state }
    ensures nobody { (state : State) (event : Event) → RepliesToNobody state event }
{}

/// A step does not look at what a client took of its replies: it is the same before and after.
pub fn steps_look_at_no_outbox()
    ensures apart { (client count : ℕ) (state : State) (event : Event) → AllJoined state
        → CanTake client count state → StepsApart client count state event }
{}

/// What the keys may be, they stay: after each event whose words may be a request's, and after each
/// change that a log replays. Each change of a step is one that a log can hold.
pub fn limits_are_kept()
    ensures step { (allowed : Native → Bool) (state : State) (event : Event) → IsServable event
        → IsKeyspace allowed state.keys → KeepsLimits allowed state event }
    ensures replay { (allowed : Native → Bool) (keys : Keys) (effect : Effect) (after : Keys)
        → IsReplayable effect → IsKeyspace allowed keys → replay keys effect ≡ Ok after
        → IsKeyspace allowed after }
{}

/// The changes that a step tells, replayed in order, make its keys of the keys before it: each is
/// accepted, and nothing else changes a key.
pub fn effects_make_the_keys()
    ensures keys { (state : State) (event : Event) → RemakesKeys state event }
{}

/// Once the clock has shown a moment, no key is due: all that were are removed.
pub fn ticks_leave_none_due()
    ensures none { (state : State) (shown : ℕ) → LeavesNoneDue state shown }
{}

/// Whatever a step is, a run over two lists of events is the run over the first and then that over
/// the second.
pub fn runs_are_joined<S, E>()
    ensures joined { (step : S → E → Step S) (state : S) (first second : List E)
        → GoesOn step state first second }
{}
