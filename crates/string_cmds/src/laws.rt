//! What holds of every command on a string.

ghost use Rattle.std.specs.Prelude.{◌≡◌, ℕ, List, Option, Some, None, false, slice_get};
ghost use Rattle.core_types.specs.CommandRow.{MeetArity};
ghost use Rattle.sequences.specs.Words.{word};
ghost use Rattle.string_cmds.specs.declared.command.StringCmd.{StringCmd};
ghost use Rattle.string_cmds.specs.Commands.{command_row};
ghost use Rattle.core_types.specs.CommandLaws.{ChangesNothing};
ghost use Rattle.core_types.specs.Refusals.{IsRefusal};
ghost use Rattle.core_types.specs.Limits.{IsWithinLimits};
ghost use Rattle.string_cmds.specs.Laws.{ChangesAtMostOnce, IsKept, KeepsLimits};
ghost use Rattle.string_cmds.specs.Rows.{other_row, row};

use crate::StringCmd;

/// A command changes nothing and tells nothing, or it changes its key once: one effect makes the
/// same change again where the key is as it was, and one event tells of it.
pub fn effects_remake_changes()
    ensures string { (cmd : StringCmd) (old : Option (List ℕ)) (words : List (List ℕ))
        → MeetArity (command_row cmd) words
        → ChangesAtMostOnce (λ c w. row c old w) (word 1 words) (row cmd old words) }
    ensures other { (cmd : StringCmd) (words : List (List ℕ)) → MeetArity (command_row cmd) words
        → ChangesAtMostOnce other_row (word 1 words) (other_row cmd words) }
{}

/// A command that is refused, or that only reads, changes nothing and tells nothing.
pub fn refusals_change_nothing()
    ensures string { (cmd : StringCmd) (old : Option (List ℕ)) (words : List (List ℕ))
        → MeetArity (command_row cmd) words
        → IsRefusal (row cmd old words).reply → ChangesNothing (row cmd old words) }
    ensures other { (cmd : StringCmd) (words : List (List ℕ)) → MeetArity (command_row cmd) words
        → IsRefusal (other_row cmd words).reply → ChangesNothing (other_row cmd words) }
    ensures reading { (cmd : StringCmd) (old : Option (List ℕ)) (words : List (List ℕ))
        → (command_row cmd).writes ≡ false
        → ChangesNothing (row cmd old words) }
{}

/// Where the words may be a request's and the string that is held keeps the limit, the string that
/// is made keeps it too, and an effect may be a request.
pub fn limits_are_kept()
    ensures string { (cmd : StringCmd) (old : Option (List ℕ)) (words : List (List ℕ))
        → IsKept old
        → IsWithinLimits words → KeepsLimits old (row cmd old words) }
    ensures other { (cmd : StringCmd) (words : List (List ℕ)) → IsWithinLimits words
        → KeepsLimits None (other_row cmd words) }
{}

/// The list has each command, and no two have one name.
pub fn commands_are_listed()
    ensures all { (cmd : StringCmd) → (place : ℕ) × (slice_get StringCmd.ALL place ≡ Some cmd) }
    ensures named { (a b : StringCmd) → (command_row a).name ≡ (command_row b).name → a ≡ b }
{}
