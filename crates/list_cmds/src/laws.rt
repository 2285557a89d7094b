//! What holds of every command on a list.

ghost use Rattle.std.specs.Prelude.{◌≡◌, ℕ, List, Option, Some, None, false, slice_get};
ghost use Rattle.core_types.specs.CommandRow.{MeetArity};
ghost use Rattle.sequences.specs.Words.{word};
ghost use Rattle.list_cmds.specs.declared.command.ListCmd.{ListCmd};
ghost use Rattle.list_cmds.specs.Commands.{command_row};
ghost use Rattle.core_types.specs.CommandLaws.{ChangesNothing};
ghost use Rattle.core_types.specs.Refusals.{IsRefusal};
ghost use Rattle.core_types.specs.Limits.{IsWithinLimits};
ghost use Rattle.list_cmds.specs.Laws.{ChangesAtMostOnce, IsKept, KeepsLimits};
ghost use Rattle.list_cmds.specs.Rows.{other_row, row};

use crate::ListCmd;

/// A command changes nothing and tells nothing, or it changes its key once: one effect makes the
/// same change again where the key is as it was, and one event tells of it, with a second one where
/// the key is removed.
pub fn effects_remake_changes()
    ensures list { (cmd : ListCmd) (old : Option (List (List ℕ))) (words : List (List ℕ))
        → MeetArity (command_row cmd) words
        → ChangesAtMostOnce (λ c w. row c old w) (word 1 words) (row cmd old words) }
{}

/// A command that is refused, or that only reads, or that finds another kind of value, changes
/// nothing and tells nothing.
pub fn refusals_change_nothing()
    ensures list { (cmd : ListCmd) (old : Option (List (List ℕ))) (words : List (List ℕ))
        → MeetArity (command_row cmd) words
        → IsRefusal (row cmd old words).reply → ChangesNothing (row cmd old words) }
    ensures other { (cmd : ListCmd) (words : List (List ℕ))
        → IsRefusal (other_row cmd words).reply × ChangesNothing (other_row cmd words) }
    ensures reading { (cmd : ListCmd) (old : Option (List (List ℕ))) (words : List (List ℕ))
        → (command_row cmd).writes ≡ false
        → ChangesNothing (row cmd old words) }
{}

/// Where the words may be a request's and the list that is held has an item and keeps the limits,
/// the list that is left has one and keeps them too, and an effect may be a request.
pub fn limits_are_kept()
    ensures list { (cmd : ListCmd) (old : Option (List (List ℕ))) (words : List (List ℕ))
        → MeetArity (command_row cmd) words
        → IsKept old → IsWithinLimits words → KeepsLimits old (row cmd old words) }
{}

/// The list has each command, and no two have one name.
pub fn commands_are_listed()
    ensures all { (cmd : ListCmd) → (place : ℕ) × (slice_get ListCmd.ALL place ≡ Some cmd) }
    ensures named { (a b : ListCmd) → (command_row a).name ≡ (command_row b).name → a ≡ b }
{}
