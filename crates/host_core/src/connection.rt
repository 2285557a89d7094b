//! The commands of a connection.

ghost use Rattle.std.specs.Prelude.{◌≡◌, ◌<◌, pos, length, IfOk};
ghost use Rattle.byte_text.specs.Number.{i64_of};
ghost use Rattle.core_types.specs.CommandRow.{row_of_spec, MeetArity};
ghost use Rattle.host_core.specs.Builtins.{connection_row, keyless, known_commands};
ghost use Rattle.host_core.specs.Connection.{connection_reply, counted, pong, selected};

use crate::Builtin;
use byte_text::{read_i64, same_name};
use core_types::{Args, Blob, CommandSpec, NoMemory, Refusal, Reply, wrong_arity};
use std::alloc::Global;

/// A command of a connection. It changes no key.
#[derive(Clone, Copy, Debug, PartialEq, Eq)]
pub enum ConnectionCmd {
    /// `PING [message]`: `PONG`, or the message.
    Ping,
    /// `ECHO message`: the message.
    Echo,
    /// `SELECT number`: database 0 alone is there.
    Select,
    /// `QUIT`: the client is served no longer.
    Quit,
    /// `COMMAND COUNT`: the number of commands that are known.
    Command,
}

impl ConnectionCmd {
    /// The commands, each once.
    pub const ALL: [ConnectionCmd; 5] = [
        ConnectionCmd::Ping,
        ConnectionCmd::Echo,
        ConnectionCmd::Select,
        ConnectionCmd::Quit,
        ConnectionCmd::Command,
    ];

    /// The name, the number of words, and whether the words may stand in a log.
    pub fn spec(self) -> CommandSpec
        ensures row { row_of_spec result ≡ connection_row self }
    {
        match self {
            ConnectionCmd::Ping => keyless(b"PING", -1, false),
            ConnectionCmd::Echo => keyless(b"ECHO", 2, false),
            ConnectionCmd::Select => keyless(b"SELECT", 2, true),
            ConnectionCmd::Quit => keyless(b"QUIT", 1, false),
            ConnectionCmd::Command => keyless(b"COMMAND", 2, false),
        }
    }

    /// What a client is answered.
    pub fn reply(self, alloc: Global, words: &Args) -> Result<Reply, NoMemory>
        requires arity { MeetArity (connection_row self) words.now }
        ensures reply { IfOk result (λ reply. reply ≡ connection_reply self words.now) }
    {
        match self {
            ConnectionCmd::Ping => pong(alloc, words),
            ConnectionCmd::Echo => Ok(Reply::Bulk(Blob::from_slice(alloc, words.word(1))?)),
            ConnectionCmd::Select => select(alloc, words.word(1)),
            ConnectionCmd::Quit => Reply::simple(alloc, b"OK"),
            ConnectionCmd::Command => count(alloc, words.word(1)),
        }
    }
}

// A command that names no key.
fn keyless(name: &'static [u8], arity: i32, writes: bool) -> CommandSpec
    ensures { row_of_spec result ≡ keyless name.now arity writes }
{
    CommandSpec {
        name,
        arity,
        writes,
        key: 0,
    }
}

fn pong(alloc: Global, words: &Args) -> Result<Reply, NoMemory>
    requires { 0 < length words.now }
    ensures { IfOk result (λ reply. reply ≡ pong (length words.now) words.now) }
{
    match words.len() {
        1 => Reply::simple(alloc, b"PONG"),
        2 => Ok(Reply::Bulk(Blob::from_slice(alloc, words.word(1))?)),
        _ => wrong_arity(alloc, b"PING"),
    }
}

fn select(alloc: Global, number: &[u8]) -> Result<Reply, NoMemory>
    ensures { IfOk result (λ reply. reply ≡ selected (i64_of number.now)) }
{
    match read_i64(number) {
        None => Refusal::NotAnInteger.reply(alloc),
        Some(0) => Reply::simple(alloc, b"OK"),
        Some(_) => Refusal::DatabaseOutOfRange.reply(alloc),
    }
}

fn count(alloc: Global, what: &[u8]) -> Result<Reply, NoMemory>
    ensures { IfOk result (λ reply. reply ≡ counted known_commands what.now) }
{
    if same_name(what, b"COUNT") {
        Ok(Reply::Int(known()))
    } else {
        Refusal::Syntax.reply(alloc)
    }
}

#[tactic(auto, unfolding(crate::specs::Builtins::known_commands))]
fn known() -> i64
    ensures { result ≡ pos known_commands }
{
    Builtin::ALL.len() as i64
}
