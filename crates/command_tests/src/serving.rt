//! Lines that are run on keys, and what they give as text.

use byte_text::i64_text;
use core_types::{Args, Blob, Effects, NoMemory, Notes, Part, Reply};
use hash_cmds::HashCmd;
use key_cmds::{Command, KeyCmd, ModuleValue, Ran, run};
use key_store::KeyStore;
use list_cmds::ListCmd;
use std::alloc::Global;
use std::hash::RandomState;
use string_cmds::StringCmd;
use type_ids::TypeName;

// A value of a module, for tests.
#[derive(Debug, Drop)]
pub struct Sample {
    pub name: TypeName,
}

impl ModuleValue for Sample {
    ghost type_name = { λ s. s.name };

    fn type_name(&self) -> TypeName {
        self.name
    }
}

// The words of a line, with one space between two.
fn words_of(alloc: Global, line: &[u8]) -> Result<Args, NoMemory> {
    let mut words = Args::new(alloc);
    for word in line.split(|byte| *byte == b' ') {
        words.push(word)?;
    }
    Ok(words)
}

// The command of a name.
fn command_of(name: &[u8]) -> Option<Command> {
    if let Some(cmd) = KeyCmd::ALL
        .iter()
        .copied()
        .find(|cmd| cmd.spec().name == name)
    {
        return Some(Command::Keys(cmd));
    }
    if let Some(cmd) = StringCmd::ALL
        .iter()
        .copied()
        .find(|cmd| cmd.spec().name == name)
    {
        return Some(Command::Str(cmd));
    }
    if let Some(cmd) = ListCmd::ALL
        .iter()
        .copied()
        .find(|cmd| cmd.spec().name == name)
    {
        return Some(Command::List(cmd));
    }
    match HashCmd::ALL
        .iter()
        .copied()
        .find(|cmd| cmd.spec().name == name)
    {
        Some(cmd) => Some(Command::Hash(cmd)),
        None => None,
    }
}

// Adds a part of an array: the bytes of a bulk, or a dash.
fn show_part(text: &mut Blob, part: &Part) -> Result<(), NoMemory> {
    text.push(b' ')?;
    match part {
        Part::Bulk(bytes) => text.push_slice(bytes.as_slice()),
        _ => text.push(b'-'),
    }
}

// A reply as RESP2 begins it, with the bytes of a bulk and the parts of an array at once.
fn show_reply(text: &mut Blob, reply: &Reply) -> Result<(), NoMemory> {
    match reply {
        Reply::Simple(line) => {
            text.push(b'+')?;
            text.push_slice(line.as_slice())
        }
        Reply::Error(line) => {
            text.push(b'-')?;
            text.push_slice(line.as_slice())
        }
        Reply::Int(n) => {
            text.push(b':')?;
            text.push_slice(i64_text(*n).as_slice())
        }
        Reply::Bulk(bytes) => {
            text.push(b'$')?;
            text.push_slice(bytes.as_slice())
        }
        Reply::Array(replies) => {
            text.push(b'*')?;
            for part in replies.parts() {
                show_part(text, part)?;
            }
            Ok(())
        }
        _ => text.push_slice(b"null"),
    }
}

// Adds the words of each effect behind `>`.
fn show_effects(text: &mut Blob, effects: &Effects) -> Result<(), NoMemory> {
    for effect in effects.as_slice() {
        text.push_slice(b" >")?;
        for word in effect.words.from_place(0) {
            text.push(b' ')?;
            text.push_slice(word)?;
        }
    }
    Ok(())
}

// Adds the name and the key of each event behind `!`.
fn show_notes(text: &mut Blob, notes: &Notes) -> Result<(), NoMemory> {
    for note in notes.as_slice() {
        text.push_slice(b" !")?;
        text.push_slice(note.name.as_slice())?;
        text.push(b':')?;
        text.push_slice(note.key.as_slice())?;
    }
    Ok(())
}

// Adds the reply, and behind it the effects and the events where all is asked for.
fn show(text: &mut Blob, ran: &Ran, what: Shown) -> Result<(), NoMemory> {
    show_reply(text, &ran.reply)?;
    match what {
        Shown::Reply => Ok(()),
        Shown::All => {
            show_effects(text, &ran.effects)?;
            show_notes(text, &ran.notes)
        }
    }
}

/// What is shown of a command that ran.
#[derive(Clone, Copy)]
pub enum Shown {
    Reply,
    All,
}

/// A place for keys, and for the values of modules that leave it.
#[derive(Drop)]
pub struct Served {
    pub hashing: RandomState,
    pub keys: KeyStore<Sample>,
    pub left: Vec<Sample>,
}

impl Served {
    /// No keys.
    pub fn new(alloc: Global, hashing: RandomState) -> Served {
        Served {
            hashing,
            keys: KeyStore::new(alloc),
            left: Vec::new(alloc),
        }
    }

    // Runs the command of these words at a moment, and adds what it gave.
    fn run(
        &mut self,
        alloc: Global,
        moment: u64,
        words: &Args,
        what: Shown,
        text: &mut Blob,
    ) -> Result<(), NoMemory> {
        let cmd = match words.get(0) {
            Some(name) => command_of(name),
            None => None,
        };
        match cmd {
            Some(cmd) if cmd.spec().takes(words.len()) => {
                let ran = run(
                    alloc,
                    self.hashing,
                    &mut self.keys,
                    moment,
                    cmd,
                    words,
                    &mut self.left,
                )?;
                show(text, &ran, what)
            }
            _ => text.push_slice(b"no command"),
        }
    }

    /// Runs a line at a moment, and shows what it gave.
    pub fn serve(
        &mut self,
        alloc: Global,
        moment: u64,
        line: &[u8],
        what: Shown,
    ) -> Result<Blob, NoMemory> {
        let words = words_of(alloc, line)?;
        let mut text = Blob::new(alloc);
        self.run(alloc, moment, &words, what, &mut text)?;
        Ok(text)
    }
}
