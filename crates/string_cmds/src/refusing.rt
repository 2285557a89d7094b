//! For what words are refused, whatever the key holds.

ghost use Rattle.std.specs.Prelude.{◌≡◌, ◌<◌, length};
ghost use Rattle.byte_text.specs.Number.{i64_of};
ghost use Rattle.core_types.specs.CommandRow.{MeetArity};
ghost use Rattle.sequences.specs.Words.{word};
ghost use Rattle.string_cmds.specs.Commands.{command_row};
ghost use Rattle.string_cmds.specs.Rows.{refusal};
ghost use Rattle.core_types.specs.Refusals.{no_number};
ghost use Rattle.string_cmds.specs.Words.{no_offset};

use crate::StringCmd;
use crate::setting::asked_by;
use byte_text::read_i64;
use core_types::{Args, Refusal};

/// For what these words are refused, the first by their places.
pub(crate) fn refusal(cmd: StringCmd, words: &Args) -> Option<Refusal>
    requires { MeetArity (command_row cmd) words.now }
    ensures { result ≡ refusal cmd words.now }
{
    match cmd {
        StringCmd::Set => match asked_by(words.from_place(3)) {
            Some(_) => None,
            None => Some(Refusal::Syntax),
        },
        StringCmd::GetRange => no_number(words, 2).or(no_number(words, 3)),
        StringCmd::SetRange => no_offset(words, 2),
        StringCmd::IncrBy | StringCmd::DecrBy => no_number(words, 2),
        StringCmd::Get
        | StringCmd::SetNx
        | StringCmd::GetSet
        | StringCmd::Append
        | StringCmd::StrLen
        | StringCmd::Incr
        | StringCmd::Decr => None,
    }
}

// A word that is no number.
fn no_number(words: &Args, place: usize) -> Option<Refusal>
    requires { place < length words.now }
    ensures { result ≡ no_number (i64_of (word place words.now)) }
{
    Refusal::no_number(read_i64(words.word(place)))
}

// A word that is no number, or one below 0.
fn no_offset(words: &Args, place: usize) -> Option<Refusal>
    requires { place < length words.now }
    ensures { result ≡ no_offset (i64_of (word place words.now)) }
{
    match read_i64(words.word(place)) {
        Some(offset) if offset < 0 => Some(Refusal::OffsetOutOfRange),
        Some(_) => None,
        None => Some(Refusal::NotAnInteger),
    }
}
