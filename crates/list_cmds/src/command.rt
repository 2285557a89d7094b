//! The commands on lists, as a list of rows.

ghost use Rattle.std.specs.Prelude.{◌≡◌};
ghost use Rattle.core_types.specs.CommandRow.{row_of_spec, takes};
ghost use Rattle.list_cmds.specs.Commands.{command_row};

use core_types::CommandSpec;

/// A command on one key that holds a list.
#[derive(Clone, Copy, Debug, PartialEq, Eq)]
pub enum ListCmd {
    /// `LPUSH key item..`: adds items at the front, one after the other.
    LPush,
    /// `RPUSH key item..`: adds items at the end.
    RPush,
    /// `LPOP key`: takes out the first item.
    LPop,
    /// `RPOP key`: takes out the last item.
    RPop,
    /// `LLEN key`: the number of items.
    LLen,
    /// `LINDEX key index`: the item at a place.
    LIndex,
    /// `LRANGE key start end`: the items of a range.
    LRange,
    /// `LSET key index item`: puts an item in the place of another.
    LSet,
    /// `LTRIM key start end`: keeps the items of a range.
    LTrim,
    /// `LREM key count item`: takes out equal items.
    LRem,
}

impl ListCmd {
    /// The commands, each once.
    pub const ALL: [ListCmd; 10] = [
        ListCmd::LPush,
        ListCmd::RPush,
        ListCmd::LPop,
        ListCmd::RPop,
        ListCmd::LLen,
        ListCmd::LIndex,
        ListCmd::LRange,
        ListCmd::LSet,
        ListCmd::LTrim,
        ListCmd::LRem,
    ];

    /// The name, the number of words, whether it can change the key, and the key's place.
    pub fn spec(self) -> CommandSpec
        ensures row { row_of_spec result ≡ command_row self }
    {
        match self {
            ListCmd::LPush => CommandSpec::writing(b"LPUSH", -3),
            ListCmd::RPush => CommandSpec::writing(b"RPUSH", -3),
            ListCmd::LPop => CommandSpec::writing(b"LPOP", 2),
            ListCmd::RPop => CommandSpec::writing(b"RPOP", 2),
            ListCmd::LLen => CommandSpec::reading(b"LLEN", 2),
            ListCmd::LIndex => CommandSpec::reading(b"LINDEX", 3),
            ListCmd::LRange => CommandSpec::reading(b"LRANGE", 4),
            ListCmd::LSet => CommandSpec::writing(b"LSET", 4),
            ListCmd::LTrim => CommandSpec::writing(b"LTRIM", 4),
            ListCmd::LRem => CommandSpec::writing(b"LREM", 4),
        }
    }

    /// Whether a request of this command may have this many words.
    pub fn takes(self, count: usize) -> bool
        ensures takes { result ≡ takes (command_row self).arity count }
    {
        self.spec().takes(count)
    }
}
