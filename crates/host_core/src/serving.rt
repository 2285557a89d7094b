//! Serves the words of a request.

ghost use Rattle.std.specs.Prelude.{◌≡◌, ◌<◌, ℕ, length, IfOk};
ghost use Rattle.core_types.specs.CommandRow.{MeetArity};
ghost use Rattle.core_types.specs.Keys.{Keys};
ghost use Rattle.host_core.specs.Builtins.{builtin_row};
ghost use Rattle.host_core.specs.Serving.{served, served_by};
ghost use Rattle.host_core.specs.inner.Giving.{IsGiven, is_quit};
ghost use Rattle.host_core.specs.inner.Names.{Knows};

use crate::given::Given;
use crate::names::command_of;
use crate::{Builtin, ConnectionCmd, NoValue};
use command_registry::Registry;
use core_types::{Args, NoMemory, unknown_command, wrong_arity};
use key_cmds::{Command, run};
use key_store::KeyStore;
use std::alloc::Global;
use std::hash::RandomState;

// Serves words at a moment. On an `Err` the keys may be half changed.
pub(crate) fn serve(
    alloc: Global,
    hashing: RandomState,
    names: &Registry,
    keys: &mut KeyStore<NoValue>,
    moment: u64,
    words: &Args,
) -> Result<Given, NoMemory>
    requires some { 0 < length words.now }
    requires knows { Knows names.now }
    ensures given { IfOk result (IsGiven (λ client state. served client words.now state)
        moment keys.old keys.new) }
{
    let name = words.word(0);
    let Some(cmd) = command_of(names, name) else {
        return Ok(Given::replying(alloc, unknown_command(alloc, name)?));
    };
    if !cmd.spec().takes(words.len()) {
        return Ok(Given::replying(alloc, wrong_arity(alloc, name)?));
    }
    serve_by(alloc, hashing, cmd, keys, moment, words)
}

// Serves words, of which this command takes this many.
pub(crate) fn serve_by(
    alloc: Global,
    hashing: RandomState,
    cmd: Builtin,
    keys: &mut KeyStore<NoValue>,
    moment: u64,
    words: &Args,
) -> Result<Given, NoMemory>
    requires arity { MeetArity (builtin_row cmd) words.now }
    ensures given { IfOk result (IsGiven (λ client state. served_by cmd client words.now state)
        moment keys.old keys.new) }
{
    match cmd {
        Builtin::Connection(cmd) => serve_connection(alloc, cmd, words),
        Builtin::Keys(cmd) => serve_keys(alloc, hashing, cmd, keys, moment, words),
    }
}

// A command of a connection.
pub(crate) fn serve_connection(
    alloc: Global,
    cmd: ConnectionCmd,
    words: &Args,
) -> Result<Given, NoMemory>
    requires arity { MeetArity (builtin_row (Builtin.Connection cmd)) words.now }
    ensures given { IfOk result (λ given. (moment : ℕ) (keys : Keys)
        → IsGiven (λ client state. served_by (Builtin.Connection cmd) client words.now state)
        moment keys keys given) }
{
    Ok(Given {
        closes: is_quit(cmd),
        ..Given::replying(alloc, cmd.reply(alloc, words)?)
    })
}

// Whether a command ends its connection.
fn is_quit(cmd: ConnectionCmd) -> bool
    ensures { result ≡ is_quit cmd }
{
    matches!(cmd, ConnectionCmd::Quit)
}

// A command on the keys. Without modules no value of one leaves them.
pub(crate) fn serve_keys(
    alloc: Global,
    hashing: RandomState,
    cmd: Command,
    keys: &mut KeyStore<NoValue>,
    moment: u64,
    words: &Args,
) -> Result<Given, NoMemory>
    requires arity { MeetArity (builtin_row (Builtin.Keys cmd)) words.now }
    ensures given { IfOk result (IsGiven
        (λ client state. served_by (Builtin.Keys cmd) client words.now state)
        moment keys.old keys.new) }
{
    let mut left = Vec::new(alloc);
    let ran = run(alloc, hashing, keys, moment, cmd, words, &mut left)?;
    Ok(Given {
        reply: ran.reply,
        effects: ran.effects,
        closes: false,
    })
}
