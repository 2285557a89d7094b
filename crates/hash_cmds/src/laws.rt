//! What holds of every command on a hash.

ghost use Rattle.std.specs.Prelude.{◌≡◌, ℕ, List, Option, Some, None, false, slice_get};
ghost use Rattle.core_types.specs.CommandRow.{MeetArity};
ghost use Rattle.sequences.specs.Words.{word};
ghost use Rattle.core_types.specs.declared.field.Field.{Field};
ghost use Rattle.hash_cmds.specs.declared.command.HashCmd.{HashCmd};
ghost use Rattle.hash_cmds.specs.Commands.{command_row};
ghost use Rattle.core_types.specs.CommandLaws.{ChangesNothing};
ghost use Rattle.core_types.specs.Refusals.{IsRefusal};
ghost use Rattle.core_types.specs.Limits.{IsWithinLimits};
ghost use Rattle.hash_cmds.specs.Laws.{ChangesAtMostOnce, IsKept, KeepsLimits};
ghost use Rattle.hash_cmds.specs.Rows.{other_row, row};

use crate::HashCmd;

/// A command changes nothing and tells nothing, or it changes its key once: one effect makes the
/// same change again where the key is as it was, and one event tells of it, with a second where the
/// key goes.
pub fn effects_remake_changes()
    ensures hash { (cmd : HashCmd) (old : Option (List Field)) (words : List (List ℕ))
        → MeetArity (command_row cmd) words
        → ChangesAtMostOnce (λ c w. row c old w) (word 1 words) (row cmd old words) }
{}

/// A command that is refused, or that only reads, changes nothing and tells nothing.
pub fn refusals_change_nothing()
    ensures hash { (cmd : HashCmd) (old : Option (List Field)) (words : List (List ℕ))
        → MeetArity (command_row cmd) words
        → IsRefusal (row cmd old words).reply → ChangesNothing (row cmd old words) }
    ensures other { (cmd : HashCmd) (words : List (List ℕ)) → ChangesNothing (other_row cmd words) }
    ensures reading { (cmd : HashCmd) (old : Option (List Field)) (words : List (List ℕ))
        → (command_row cmd).writes ≡ false
        → ChangesNothing (row cmd old words) }
{}

/// Where the words may be a request's and the hash that is held keeps the limits, the hash that is
/// made keeps them too: it has a field, no name or value is too long, and no name stands twice. An
/// effect may be a request.
pub fn limits_are_kept()
    ensures hash { (cmd : HashCmd) (old : Option (List Field)) (words : List (List ℕ))
        → MeetArity (command_row cmd) words
        → IsKept old
        → IsWithinLimits words → KeepsLimits old (row cmd old words) }
{}

/// The list has each command, and no two have one name.
pub fn commands_are_listed()
    ensures all { (cmd : HashCmd) → (place : ℕ) × (slice_get HashCmd.ALL place ≡ Some cmd) }
    ensures named { (a b : HashCmd) → (command_row a).name ≡ (command_row b).name → a ≡ b }
{}
