//! With what error words are refused, whatever the key holds.

ghost use Rattle.std.specs.Prelude.{◌≡◌, IfOk, length};
ghost use Rattle.core_types.specs.CommandRow.{MeetArity};
ghost use Rattle.hash_cmds.specs.Commands.{command_row};
ghost use Rattle.hash_cmds.specs.Rows.{refusal};
ghost use Rattle.hash_cmds.specs.Words.{no_number, no_pairs};
ghost use Rattle.byte_text.specs.Number.{i64_of};
ghost use Rattle.sequences.specs.Words.{word};

use crate::HashCmd;
use byte_text::read_i64;
use core_types::{Args, NoMemory, Refusal, Reply, wrong_arity};
use std::alloc::Global;

/// The error with which these words are refused, if they are.
pub(crate) fn refusal(alloc: Global, cmd: HashCmd, words: &Args) -> Result<Option<Reply>, NoMemory>
    requires { MeetArity (command_row cmd) words.now }
    ensures { IfOk result (λ error. error ≡ refusal cmd words.now) }
{
    match cmd {
        HashCmd::HSet => no_pairs(alloc, b"HSET", words),
        HashCmd::HMSet => no_pairs(alloc, b"HMSET", words),
        HashCmd::HIncrBy => no_number(alloc, words),
        _ => Ok(None),
    }
}

// Words behind the key that are no pairs.
fn no_pairs(alloc: Global, name: &[u8], words: &Args) -> Result<Option<Reply>, NoMemory>
    ensures { IfOk result (λ error. error ≡ no_pairs name.now words.now) }
{
    if words.len() % 2 == 1 {
        Ok(Some(wrong_arity(alloc, name)?))
    } else {
        Ok(None)
    }
}

// A fourth word that is no number.
fn no_number(alloc: Global, words: &Args) -> Result<Option<Reply>, NoMemory>
    requires { length words.now ≡ 4 }
    ensures { IfOk result (λ error. error ≡ no_number (i64_of (word 3 words.now))) }
{
    match read_i64(words.word(3)) {
        Some(_) => Ok(None),
        None => Ok(Some(Refusal::NotAnInteger.reply(alloc)?)),
    }
}
