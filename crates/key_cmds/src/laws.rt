//! What holds of every command on the keys.

ghost use Rattle.std.specs.Prelude.{◌≡◌, ◌≢◌, ℕ, List, false};
ghost use Rattle.core_types.specs.CommandRow.{MeetArity};
ghost use Rattle.core_types.specs.Keys.{KeysOf};
ghost use Rattle.core_types.specs.Refusals.{IsRefusal};
ghost use Rattle.key_cmds.specs.declared.command.Command.{Command};
ghost use Rattle.key_cmds.specs.Commands.{command_row};
ghost use Rattle.key_cmds.specs.Laws.{ChangesAtMostOnce, ChangesNothing};
ghost use Rattle.key_cmds.specs.Rows.{does};

use crate::{Command, KeyCmd};

/// Whatever the moment, a command changes nothing and tells nothing, or it makes a change of which
/// somebody is told, and one effect makes the same keys again of the keys as they were, when a log
/// is replayed.
pub fn effects_remake_changes<N>()
    ensures commands { (type_name : N → List ℕ) (moment : ℕ) (cmd : Command) (keys : KeysOf N)
        (words : List (List ℕ)) → MeetArity (command_row cmd) words
        → ChangesAtMostOnce type_name keys (does type_name moment cmd keys words) }
{}

/// A command that is refused changes nothing and tells nothing; nor does one that no log has under
/// its own name, unless it is EXPIRE.
pub fn refusals_change_nothing<N>()
    ensures refused { (type_name : N → List ℕ) (moment : ℕ) (cmd : Command) (keys : KeysOf N)
        (words : List (List ℕ)) → MeetArity (command_row cmd) words
        → IsRefusal (does type_name moment cmd keys words).reply
        → ChangesNothing keys (does type_name moment cmd keys words) }
    ensures reading { (type_name : N → List ℕ) (moment : ℕ) (cmd : Command) (keys : KeysOf N)
        (words : List (List ℕ)) → MeetArity (command_row cmd) words
        → (command_row cmd).writes ≡ false → cmd ≢ Command.Keys KeyCmd.Expire
        → ChangesNothing keys (does type_name moment cmd keys words) }
{}
