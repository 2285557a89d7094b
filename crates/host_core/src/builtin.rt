//! The built-in commands, as a list of rows.

ghost use Rattle.std.specs.Prelude.{◌≡◌};
ghost use Rattle.core_types.specs.CommandRow.{row_of_spec};
ghost use Rattle.host_core.specs.Builtins.{builtin_row};

use crate::ConnectionCmd;
use core_types::CommandSpec;
use hash_cmds::HashCmd;
use key_cmds::{Command, KeyCmd};
use list_cmds::ListCmd;
use string_cmds::StringCmd;

/// A command that no module brings.
#[derive(Clone, Copy, Debug, PartialEq, Eq)]
pub enum Builtin {
    /// A command of a connection.
    Connection(ConnectionCmd),
    /// A command on the keys.
    Keys(Command),
}

impl Builtin {
    /// The commands, each once.
    pub const ALL: [Builtin; 52] = [
        Builtin::Connection(ConnectionCmd::Ping),
        Builtin::Connection(ConnectionCmd::Echo),
        Builtin::Connection(ConnectionCmd::Select),
        Builtin::Connection(ConnectionCmd::Quit),
        Builtin::Connection(ConnectionCmd::Command),
        Builtin::Keys(Command::Keys(KeyCmd::Del)),
        Builtin::Keys(Command::Keys(KeyCmd::Exists)),
        Builtin::Keys(Command::Keys(KeyCmd::Type)),
        Builtin::Keys(Command::Keys(KeyCmd::Rename)),
        Builtin::Keys(Command::Keys(KeyCmd::DbSize)),
        Builtin::Keys(Command::Keys(KeyCmd::MGet)),
        Builtin::Keys(Command::Keys(KeyCmd::MSet)),
        Builtin::Keys(Command::Keys(KeyCmd::Expire)),
        Builtin::Keys(Command::Keys(KeyCmd::PExpireAt)),
        Builtin::Keys(Command::Keys(KeyCmd::Ttl)),
        Builtin::Keys(Command::Keys(KeyCmd::PTtl)),
        Builtin::Keys(Command::Keys(KeyCmd::Persist)),
        Builtin::Keys(Command::Str(StringCmd::Get)),
        Builtin::Keys(Command::Str(StringCmd::Set)),
        Builtin::Keys(Command::Str(StringCmd::SetNx)),
        Builtin::Keys(Command::Str(StringCmd::GetSet)),
        Builtin::Keys(Command::Str(StringCmd::Append)),
        Builtin::Keys(Command::Str(StringCmd::StrLen)),
        Builtin::Keys(Command::Str(StringCmd::GetRange)),
        Builtin::Keys(Command::Str(StringCmd::SetRange)),
        Builtin::Keys(Command::Str(StringCmd::Incr)),
        Builtin::Keys(Command::Str(StringCmd::Decr)),
        Builtin::Keys(Command::Str(StringCmd::IncrBy)),
        Builtin::Keys(Command::Str(StringCmd::DecrBy)),
        Builtin::Keys(Command::List(ListCmd::LPush)),
        Builtin::Keys(Command::List(ListCmd::RPush)),
        Builtin::Keys(Command::List(ListCmd::LPop)),
        Builtin::Keys(Command::List(ListCmd::RPop)),
        Builtin::Keys(Command::List(ListCmd::LLen)),
        Builtin::Keys(Command::List(ListCmd::LIndex)),
        Builtin::Keys(Command::List(ListCmd::LRange)),
        Builtin::Keys(Command::List(ListCmd::LSet)),
        Builtin::Keys(Command::List(ListCmd::LTrim)),
        Builtin::Keys(Command::List(ListCmd::LRem)),
        Builtin::Keys(Command::Hash(HashCmd::HSet)),
        Builtin::Keys(Command::Hash(HashCmd::HMSet)),
        Builtin::Keys(Command::Hash(HashCmd::HSetNx)),
        Builtin::Keys(Command::Hash(HashCmd::HGet)),
        Builtin::Keys(Command::Hash(HashCmd::HMGet)),
        Builtin::Keys(Command::Hash(HashCmd::HDel)),
        Builtin::Keys(Command::Hash(HashCmd::HLen)),
        Builtin::Keys(Command::Hash(HashCmd::HExists)),
        Builtin::Keys(Command::Hash(HashCmd::HStrLen)),
        Builtin::Keys(Command::Hash(HashCmd::HKeys)),
        Builtin::Keys(Command::Hash(HashCmd::HVals)),
        Builtin::Keys(Command::Hash(HashCmd::HGetAll)),
        Builtin::Keys(Command::Hash(HashCmd::HIncrBy)),
    ];

    /// The name, the number of words, whether the words in a log are a change, and the first key's
    /// place.
    pub fn spec(self) -> CommandSpec
        ensures row { row_of_spec result ≡ builtin_row self }
    {
        match self {
            Builtin::Connection(cmd) => cmd.spec(),
            Builtin::Keys(cmd) => cmd.spec(),
        }
    }
}
