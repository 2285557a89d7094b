//! The commands on the keys, as a list of rows.

ghost use Rattle.std.specs.Prelude.{◌≡◌};
ghost use Rattle.core_types.specs.CommandRow.{row_of_spec};
ghost use Rattle.key_cmds.specs.Commands.{command_row, key_row};

use core_types::CommandSpec;
use hash_cmds::HashCmd;
use list_cmds::ListCmd;
use string_cmds::StringCmd;

/// A command on keys of any kind.
#[derive(Clone, Copy, Debug, PartialEq, Eq)]
pub enum KeyCmd {
    /// `DEL key..`: removes keys.
    Del,
    /// `EXISTS key..`: how many of the words name a key that is there.
    Exists,
    /// `TYPE key`: the name of the type of what a key holds.
    Type,
    /// `RENAME from to`: moves what a key has to another.
    Rename,
    /// `DBSIZE`: the number of keys.
    DbSize,
    /// `MGET key..`: the strings of keys.
    MGet,
    /// `MSET key value ..`: sets keys.
    MSet,
    /// `EXPIRE key seconds`: the key is due after this time.
    Expire,
    /// `PEXPIREAT key milliseconds`: the key is due at this moment.
    PExpireAt,
    /// `TTL key`: the seconds until a key is due.
    Ttl,
    /// `PTTL key`: the milliseconds until a key is due.
    PTtl,
    /// `PERSIST key`: the key is due no more.
    Persist,
}

/// A command on the keys.
#[derive(Clone, Copy, Debug, PartialEq, Eq)]
pub enum Command {
    /// On keys of any kind.
    Keys(KeyCmd),
    /// On a key that holds a string.
    Str(StringCmd),
    /// On a key that holds a list.
    List(ListCmd),
    /// On a key that holds a hash.
    Hash(HashCmd),
}

impl KeyCmd {
    /// The commands, each once.
    pub const ALL: [KeyCmd; 12] = [
        KeyCmd::Del,
        KeyCmd::Exists,
        KeyCmd::Type,
        KeyCmd::Rename,
        KeyCmd::DbSize,
        KeyCmd::MGet,
        KeyCmd::MSet,
        KeyCmd::Expire,
        KeyCmd::PExpireAt,
        KeyCmd::Ttl,
        KeyCmd::PTtl,
        KeyCmd::Persist,
    ];

    /// The name, the number of words, whether the words in a log are a change, and the first key's
    /// place.
    pub fn spec(self) -> CommandSpec
        ensures row { row_of_spec result ≡ key_row self }
    {
        match self {
            KeyCmd::Del => row(b"DEL", -2, true),
            KeyCmd::Exists => row(b"EXISTS", -2, false),
            KeyCmd::Type => row(b"TYPE", 2, false),
            KeyCmd::Rename => row(b"RENAME", 3, true),
            KeyCmd::DbSize => CommandSpec {
                name: b"DBSIZE",
                arity: 1,
                writes: false,
                key: 0,
            },
            KeyCmd::MGet => row(b"MGET", -2, false),
            KeyCmd::MSet => row(b"MSET", -3, true),
            KeyCmd::Expire => row(b"EXPIRE", 3, false),
            KeyCmd::PExpireAt => row(b"PEXPIREAT", 3, true),
            KeyCmd::Ttl => row(b"TTL", 2, false),
            KeyCmd::PTtl => row(b"PTTL", 2, false),
            KeyCmd::Persist => row(b"PERSIST", 2, true),
        }
    }
}

impl Command {
    /// The name, the number of words, whether the words in a log are a change, and the first key's
    /// place.
    pub fn spec(self) -> CommandSpec
        ensures row { row_of_spec result ≡ command_row self }
    {
        match self {
            Command::Keys(cmd) => cmd.spec(),
            Command::Str(cmd) => cmd.spec(),
            Command::List(cmd) => cmd.spec(),
            Command::Hash(cmd) => cmd.spec(),
        }
    }
}

// A row whose first key stands behind the name.
fn row(name: &'static [u8], arity: i32, writes: bool) -> CommandSpec
    ensures { row_of_spec result
        ≡ record { name = name.now; arity = arity; writes = writes; key = 1 } }
{
    CommandSpec {
        name,
        arity,
        writes,
        key: 1,
    }
}
