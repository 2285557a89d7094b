//! The commands on hashes, as a list of rows.

ghost use Rattle.std.specs.Prelude.{◌≡◌};
ghost use Rattle.core_types.specs.CommandRow.{row_of_spec, takes};
ghost use Rattle.hash_cmds.specs.Commands.{command_row};

use core_types::CommandSpec;

/// A command on one key that holds a hash.
#[derive(Clone, Copy, Debug, PartialEq, Eq)]
pub enum HashCmd {
    /// `HSET key name value [name value ...]`: puts fields, and answers how many are new.
    HSet,
    /// `HMSET key name value [name value ...]`: puts fields.
    HMSet,
    /// `HSETNX key name value`: puts a field where its name is not there.
    HSetNx,
    /// `HGET key name`: the value of a field.
    HGet,
    /// `HMGET key name [name ...]`: the values of fields.
    HMGet,
    /// `HDEL key name [name ...]`: takes out fields, and answers how many were there.
    HDel,
    /// `HLEN key`: the number of fields.
    HLen,
    /// `HEXISTS key name`: whether the name is there.
    HExists,
    /// `HSTRLEN key name`: the number of bytes of a value.
    HStrLen,
    /// `HKEYS key`: the names.
    HKeys,
    /// `HVALS key`: the values.
    HVals,
    /// `HGETALL key`: the names and values.
    HGetAll,
    /// `HINCRBY key name amount`: adds to the number that a field holds.
    HIncrBy,
}

impl HashCmd {
    /// The commands, each once.
    pub const ALL: [HashCmd; 13] = [
        HashCmd::HSet,
        HashCmd::HMSet,
        HashCmd::HSetNx,
        HashCmd::HGet,
        HashCmd::HMGet,
        HashCmd::HDel,
        HashCmd::HLen,
        HashCmd::HExists,
        HashCmd::HStrLen,
        HashCmd::HKeys,
        HashCmd::HVals,
        HashCmd::HGetAll,
        HashCmd::HIncrBy,
    ];

    /// The name, the number of words, whether it can change the key, and the key's place.
    pub fn spec(self) -> CommandSpec
        ensures row { row_of_spec result ≡ command_row self }
    {
        match self {
            HashCmd::HSet => CommandSpec::writing(b"HSET", -4),
            HashCmd::HMSet => CommandSpec::writing(b"HMSET", -4),
            HashCmd::HSetNx => CommandSpec::writing(b"HSETNX", 4),
            HashCmd::HGet => CommandSpec::reading(b"HGET", 3),
            HashCmd::HMGet => CommandSpec::reading(b"HMGET", -3),
            HashCmd::HDel => CommandSpec::writing(b"HDEL", -3),
            HashCmd::HLen => CommandSpec::reading(b"HLEN", 2),
            HashCmd::HExists => CommandSpec::reading(b"HEXISTS", 3),
            HashCmd::HStrLen => CommandSpec::reading(b"HSTRLEN", 3),
            HashCmd::HKeys => CommandSpec::reading(b"HKEYS", 2),
            HashCmd::HVals => CommandSpec::reading(b"HVALS", 2),
            HashCmd::HGetAll => CommandSpec::reading(b"HGETALL", 2),
            HashCmd::HIncrBy => CommandSpec::writing(b"HINCRBY", 4),
        }
    }

    /// Whether a request of this command may have this many words.
    pub fn takes(self, count: usize) -> bool
        ensures takes { result ≡ takes (command_row self).arity count }
    {
        self.spec().takes(count)
    }
}
