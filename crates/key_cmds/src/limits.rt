//! What every command on the keys keeps: what keys may be, and the values of modules.

ghost use Rattle.std.specs.Prelude.{ℕ, Bool, List, IfSome};
ghost use Rattle.core_types.specs.CommandRow.{MeetArity};
ghost use Rattle.core_types.specs.Keys.{KeysOf};
ghost use Rattle.core_types.specs.Keyspace.{IsKeyspace};
ghost use Rattle.core_types.specs.Limits.{IsWithinLimits};
ghost use Rattle.key_cmds.specs.declared.command.Command.{Command};
ghost use Rattle.key_cmds.specs.Commands.{command_row};
ghost use Rattle.key_cmds.specs.Deadlines.{first_expired};
ghost use Rattle.key_cmds.specs.Laws.{ExpiryKeepsLimits, KeepsLimits, KeepsNatives, StayOrLeave};
ghost use Rattle.key_cmds.specs.Rows.{does};

/// Where the words may be a request's and the keys are such as they may be, the keys stay such, and
/// each effect may be a request. So it is too where a key that is due is removed.
pub fn limits_are_kept<N>()
    ensures commands { (allowed : N → Bool) (type_name : N → List ℕ) (moment : ℕ) (cmd : Command)
        (keys : KeysOf N) (words : List (List ℕ))
        → MeetArity (command_row cmd) words → IsKeyspace allowed keys → IsWithinLimits words
        → KeepsLimits allowed (does type_name moment cmd keys words) }
    ensures expiry { (allowed : N → Bool) (moment : ℕ) (keys : KeysOf N) → IsKeyspace allowed keys
        → IfSome (first_expired keys moment) (λ removal. ExpiryKeepsLimits allowed removal) }
{}

/// The values of modules that the keys had are those that they have after a command and those that
/// left, each as often as before: none is lost, and none is doubled. So it is too where a key that
/// is due is removed.
pub fn natives_are_kept<N>()
    ensures commands { (type_name : N → List ℕ) (moment : ℕ) (cmd : Command) (keys : KeysOf N)
        (words : List (List ℕ)) → KeepsNatives keys (does type_name moment cmd keys words) }
    ensures expiry { (moment : ℕ) (keys : KeysOf N)
        → IfSome (first_expired keys moment)
        (λ removal. StayOrLeave keys removal.keys removal.left) }
{}
