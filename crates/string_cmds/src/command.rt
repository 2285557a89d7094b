//! The commands on strings, as a list of rows.

ghost use Rattle.std.specs.Prelude.{◌≡◌};
ghost use Rattle.core_types.specs.CommandRow.{row_of_spec, takes};
ghost use Rattle.string_cmds.specs.Commands.{command_row};

use core_types::CommandSpec;

/// A command on one key that holds a string.
#[derive(Clone, Copy, Debug, PartialEq, Eq)]
pub enum StringCmd {
    /// `GET key`: the string.
    Get,
    /// `SET key value [NX or XX]`: sets the key, with NX only where it is not there, with XX only
    /// where it is.
    Set,
    /// `SETNX key value`: sets the key where it is not there.
    SetNx,
    /// `GETSET key value`: sets the key, and answers what it held.
    GetSet,
    /// `APPEND key value`: adds bytes at the end.
    Append,
    /// `STRLEN key`: the number of bytes.
    StrLen,
    /// `GETRANGE key start end`: the bytes of a range.
    GetRange,
    /// `SETRANGE key offset value`: writes bytes over those that stand from an offset on.
    SetRange,
    /// `INCR key`: adds 1 to a number.
    Incr,
    /// `DECR key`: takes 1 from a number.
    Decr,
    /// `INCRBY key amount`: adds to a number.
    IncrBy,
    /// `DECRBY key amount`: takes from a number.
    DecrBy,
}

impl StringCmd {
    /// The commands, each once.
    pub const ALL: [StringCmd; 12] = [
        StringCmd::Get,
        StringCmd::Set,
        StringCmd::SetNx,
        StringCmd::GetSet,
        StringCmd::Append,
        StringCmd::StrLen,
        StringCmd::GetRange,
        StringCmd::SetRange,
        StringCmd::Incr,
        StringCmd::Decr,
        StringCmd::IncrBy,
        StringCmd::DecrBy,
    ];

    /// The name, the number of words, whether it can change the key, and the key's place.
    pub fn spec(self) -> CommandSpec
        ensures row { row_of_spec result ≡ command_row self }
    {
        match self {
            StringCmd::Get => CommandSpec::reading(b"GET", 2),
            StringCmd::Set => CommandSpec::writing(b"SET", -3),
            StringCmd::SetNx => CommandSpec::writing(b"SETNX", 3),
            StringCmd::GetSet => CommandSpec::writing(b"GETSET", 3),
            StringCmd::Append => CommandSpec::writing(b"APPEND", 3),
            StringCmd::StrLen => CommandSpec::reading(b"STRLEN", 2),
            StringCmd::GetRange => CommandSpec::reading(b"GETRANGE", 4),
            StringCmd::SetRange => CommandSpec::writing(b"SETRANGE", 4),
            StringCmd::Incr => CommandSpec::writing(b"INCR", 2),
            StringCmd::Decr => CommandSpec::writing(b"DECR", 2),
            StringCmd::IncrBy => CommandSpec::writing(b"INCRBY", 3),
            StringCmd::DecrBy => CommandSpec::writing(b"DECRBY", 3),
        }
    }

    /// Whether a request of this command may have this many words.
    pub fn takes(self, count: usize) -> bool
        ensures takes { result ≡ takes (command_row self).arity count }
    {
        self.spec().takes(count)
    }
}
