ghost use Rattle.std.specs.Prelude.{◌≡◌, length};

use core_types::{Args, Blob, Effects, NoMemory};
use effect_log::{LogReader, NextUnit};
use std::alloc::Global;
use std::test::Fail;

// Says each word, behind a space.
fn say_words(text: &mut Blob, words: &Args) -> Result<(), NoMemory> {
    for word in words.from_place(0) {
        text.push(b' ')?;
        text.push_slice(word)?;
    }
    Ok(())
}

// Says each effect, in brackets.
fn say_effects(text: &mut Blob, effects: &Effects) -> Result<(), NoMemory> {
    for effect in effects.as_slice() {
        text.push(b'(')?;
        say_words(text, &effect.words)?;
        text.push(b')')?;
    }
    Ok(())
}

// Where the last effect begins of a unit that was taken, or 0 where it has none.
fn last_start(reader: &LogReader, effects: &Effects) -> u64
    requires { length reader.now.starts ≡ length effects.now }
{
    match effects.len() {
        0 => 0,
        count => reader.effect_at(count as u64 - 1),
    }
}

// Says a unit that was taken, and where its last effect begins.
fn say_taken(
    alloc: Global,
    reader: &LogReader,
    effects: &Effects,
    text: &mut Blob,
) -> Result<(), NoMemory>
    requires { length reader.now.starts ≡ length effects.now }
{
    let start = last_start(reader, effects);
    say_effects(text, effects)?;
    text.push_slice(format!(in alloc; "{start} ")?.as_bytes())
}

// Says why no unit comes.
fn say_end(alloc: Global, end: &NextUnit, text: &mut Blob) -> Result<(), NoMemory> {
    text.push_slice(format!(in alloc; "{end:?}")?.as_bytes())
}

// Says the next unit, or why none comes. Answers whether one came.
fn say_next(alloc: Global, reader: &mut LogReader, text: &mut Blob) -> Result<bool, NoMemory> {
    match reader.next()? {
        NextUnit::Unit(effects) => {
            say_taken(alloc, reader, &effects, text)?;
            Ok(true)
        }
        end => {
            say_end(alloc, &end, text)?;
            Ok(false)
        }
    }
}

// All that a log holds from a place on.
fn reading(alloc: Global, log: &[u8], start: u64) -> Result<Blob, NoMemory> {
    let mut reader = LogReader::new(alloc, log, start.min(log.len() as u64));
    let mut text = Blob::new(alloc);
    for _ in 0..9u8 {
        if !say_next(alloc, &mut reader, &mut text)? {
            break;
        }
    }
    Ok(text)
}

// A unit of two effects, in lower case and upper case, between two lone ones.
const LOG: &[u8] = b"*2\r\n$3\r\nDEL\r\n$1\r\na\r\n\
    *1\r\n$5\r\nMulti\r\n\
    *2\r\n$3\r\nDEL\r\n$1\r\na\r\n\
    *3\r\n$3\r\nSET\r\n$1\r\nb\r\n$1\r\n2\r\n\
    *1\r\n$4\r\nexec\r\n\
    *2\r\n$3\r\nDEL\r\n$1\r\nb\r\n";

// A log whose last unit is not written to its end.
const TORN: &[u8] = b"*3\r\n$3\r\nSET\r\n$1\r\nb\r\n$1\r\n2\r\n\
    *1\r\n$5\r\nMULTI\r\n\
    *3\r\n$3\r\nSET\r\n$1\r\nb\r\n$1\r\n2\r\n";

// Each call answers something else than want of memory, and what it should, from the log's start
// and from a unit in it.
#[test]
fn ample(rt: HostRuntime) -> Result<(), Fail> {
    let held = b"( DEL a)0 ( DEL a)( SET b 2)55 ( DEL b)96 End";
    assert!(rt; reading(rt.alloc(), LOG, 0)?.as_slice() == held.as_slice());
    assert!(rt; reading(rt.alloc(), LOG, 20)?.as_slice() == &held[10..]);
    Ok(())
}

// A log, and what it holds.
fn row(n: u8) -> (&'static [u8], &'static [u8]) {
    match n {
        0 => (b"", b"End"),
        1 => (b"*1\r\n$5\r\nMULTI\r\n*1\r\n$4\r\nEXEC\r\n", b"0 End"),
        2 => (b"*1\r\n$4\r\nEXEC\r\n", b"Bad(0, LoneExec)"),
        3 => (
            b"*1\r\n$5\r\nMULTI\r\n*1\r\n$5\r\nMULTI\r\n",
            b"Bad(15, NestedMulti)",
        ),
        4 => (
            b"*2\r\n$3\r\nDEL\r\n$1\r\na\r\n*0\r\n",
            b"( DEL a)0 Bad(20, NotMultibulk)",
        ),
        5 => (b"RED", b"Bad(0, NotMultibulk)"),
        6 => (&TORN[..29], b"( SET b 2)0 Tail(27)"),
        7 => (TORN, b"( SET b 2)0 Tail(27)"),
        8 => (
            b"*1\r\n$5\r\nMULTI\r\n*2\r\n$3\r\nDEL\r\n$x\r\n",
            b"Bad(28, Request(BulkLength))",
        ),
        _ => (
            b"*1\r\n$5\r\nMULTI\r\n*2\r\n$3\r\nDEL\r\n$1\r\na\r\nGET a\r\n",
            b"Bad(35, NotMultibulk)",
        ),
    }
}

// Logs that hold no more, or a fault, and where it is.
#[test]
fn logs(rt: HostRuntime) -> Result<(), Fail> {
    for n in 0..10 {
        let (log, held) = row(n);
        assert!(rt; reading(rt.alloc(), log, 0)?.as_slice() == held, "row {n}");
    }
    Ok(())
}
