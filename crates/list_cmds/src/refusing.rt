//! For what words are refused, whatever the key holds.

ghost use Rattle.std.specs.Prelude.{◌≡◌, ◌<◌, length};
ghost use Rattle.byte_text.specs.Number.{i64_of};
ghost use Rattle.core_types.specs.CommandRow.{MeetArity};
ghost use Rattle.sequences.specs.Words.{word};
ghost use Rattle.list_cmds.specs.Commands.{command_row};
ghost use Rattle.list_cmds.specs.Rows.{refusal};
ghost use Rattle.core_types.specs.Refusals.{no_number};

use crate::ListCmd;
use byte_text::read_i64;
use core_types::{Args, Refusal};

/// For what these words are refused, the first by their places.
pub(crate) fn refusal(cmd: ListCmd, words: &Args) -> Option<Refusal>
    requires { MeetArity (command_row cmd) words.now }
    ensures { result ≡ refusal cmd words.now }
{
    match cmd {
        ListCmd::LRange | ListCmd::LTrim => no_number(words, 2).or(no_number(words, 3)),
        ListCmd::LIndex | ListCmd::LSet | ListCmd::LRem => no_number(words, 2),
        ListCmd::LPush | ListCmd::RPush | ListCmd::LPop | ListCmd::RPop | ListCmd::LLen => None,
    }
}

// A word that is no number.
fn no_number(words: &Args, place: usize) -> Option<Refusal>
    requires { place < length words.now }
    ensures { result ≡ no_number (i64_of (word place words.now)) }
{
    Refusal::no_number(read_i64(words.word(place)))
}
