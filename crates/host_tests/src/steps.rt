use core_types::{Answer, Args, BadRequest, Blob, Effects, Event, NoMemory, Stop};
use host_core::{Builtin, ConnectionCmd, Core, Stepped};
use resp_codec::{Got, Reader, write_reply};
use std::alloc::Global;
use std::hash::RandomState;
use std::test::Fail;

// The words of a line, with one space between two.
fn words_of(alloc: Global, line: &[u8]) -> Result<Args, NoMemory> {
    let mut words = Args::new(alloc);
    for word in line.split(|byte| *byte == b' ') {
        words.push(word)?;
    }
    Ok(words)
}

// What a command of a connection answers, or nothing where it does not take the number of words.
fn said(alloc: Global, cmd: ConnectionCmd, line: &[u8]) -> Result<Blob, NoMemory> {
    let words = words_of(alloc, line)?;
    let mut text = Blob::new(alloc);
    if cmd.spec().takes(words.len()) {
        write_reply(&mut text, &cmd.reply(alloc, &words)?)?;
    }
    Ok(text)
}

#[test]
fn ample(rt: HostRuntime) -> Result<(), Fail> {
    let rows: [(ConnectionCmd, &[u8], &[u8]); 9] = [
        (ConnectionCmd::Ping, b"PING", b"+PONG\r\n"),
        (ConnectionCmd::Ping, b"ping hi", b"$2\r\nhi\r\n"),
        (
            ConnectionCmd::Ping,
            b"PING a b",
            b"-ERR wrong number of arguments for 'ping' command\r\n",
        ),
        (ConnectionCmd::Echo, b"ECHO hi", b"$2\r\nhi\r\n"),
        (ConnectionCmd::Select, b"SELECT 0", b"+OK\r\n"),
        (
            ConnectionCmd::Select,
            b"SELECT 1",
            b"-ERR DB index is out of range\r\n",
        ),
        (
            ConnectionCmd::Select,
            b"SELECT x",
            b"-ERR value is not an integer or out of range\r\n",
        ),
        (ConnectionCmd::Command, b"COMMAND count", b":52\r\n"),
        (
            ConnectionCmd::Command,
            b"COMMAND DOCS",
            b"-ERR syntax error\r\n",
        ),
    ];
    for (cmd, line, text) in rows {
        assert_eq!(rt; said(rt.alloc(), cmd, line)?.as_slice(), text);
    }
    assert_eq!(rt; Builtin::ALL.len(), 52);
    Ok(())
}

// What happens to a core.
#[derive(Clone, Copy)]
enum Happens {
    Join(u64),
    // A line of a client.
    Send(u64, &'static [u8]),
    // Something of a client that is no request.
    Broken(u64),
    Tick(u64),
    Gone(u64),
}

// What a run of a core gave: a letter for each answer, what client 1 was told, and the changes.
#[derive(Drop)]
struct Played {
    answers: Blob,
    told: Blob,
    changes: Blob,
}

// A letter for an answer.
fn letter(answer: &Answer) -> u8 {
    match answer {
        Answer::Done => b'd',
        Answer::NoClient => b'n',
        Answer::StaleClient => b's',
        _ => b'?',
    }
}

// The words of changes, each change ended by `;`.
fn show(text: &mut Blob, effects: &Effects) -> Result<(), NoMemory> {
    for effect in effects.as_slice() {
        for word in effect.words.from_place(0) {
            text.push_slice(word)?;
            text.push(b' ')?;
        }
        text.push(b';')?;
    }
    Ok(())
}

// A line that a client sends, as the reader of a stream makes a request of it.
fn send(alloc: Global, core: &mut Core, client: u64, line: &[u8]) -> Result<Stepped, Stop> {
    let mut reader = Reader::new(alloc);
    reader.feed(line)?;
    match reader.next()? {
        Got::Request(words) => core.step(&Event::Arrive(client, words)),
        Got::More | Got::Bad(_, _) => Err(Stop::Memory),
    }
}

fn happen(alloc: Global, core: &mut Core, event: Happens) -> Result<Stepped, Stop> {
    match event {
        Happens::Join(client) => core.step(&Event::Join(client)),
        Happens::Send(client, line) => send(alloc, core, client, line),
        Happens::Broken(client) => { core.step(&Event::Malformed(client, BadRequest::BulkLength)) }
        Happens::Tick(moment) => core.step(&Event::Tick(moment)),
        Happens::Gone(client) => core.step(&Event::Gone(client)),
    }
}

fn play(alloc: Global, hashing: RandomState, events: &[Happens]) -> Result<Played, Stop> {
    let mut core = Core::new(alloc, hashing)?;
    let mut answers = Blob::new(alloc);
    let mut changes = Blob::new(alloc);
    for event in events {
        let stepped = happen(alloc, &mut core, *event)?;
        answers.push(letter(&stepped.answer))?;
        show(&mut changes, &stepped.effects)?;
    }
    core.flush();
    let mut bytes = [0; 512];
    let count = core.take_out(1, &mut bytes);
    Ok(Played {
        answers,
        told: Blob::from_slice(alloc, &bytes[..count])?,
        changes,
    })
}

// A run, and what is to be seen of it.
struct Row {
    events: &'static [Happens],
    answers: &'static [u8],
    told: &'static [u8],
    changes: &'static [u8],
}

static ROWS: [Row; 7] = [
    Row {
        events: &[
            Happens::Join(1),
            Happens::Send(1, b"SET n 9223372036854775807\n"),
            Happens::Send(1, b"INCR n\n"),
            Happens::Send(1, b"GET n\n"),
        ],
        answers: b"dddd",
        told: b"+OK\r\n-ERR increment or decrement would overflow\r\n\
            $19\r\n9223372036854775807\r\n",
        changes: b"SET n 9223372036854775807 ;",
    },
    Row {
        events: &[
            Happens::Join(1),
            Happens::Send(1, b"NOPE\n"),
            Happens::Send(1, b"GET\n"),
            Happens::Send(1, b"get a b\n"),
        ],
        answers: b"dddd",
        told: b"-ERR unknown command 'NOPE'\r\n\
            -ERR wrong number of arguments for 'get' command\r\n\
            -ERR wrong number of arguments for 'get' command\r\n",
        changes: b"",
    },
    Row {
        events: &[
            Happens::Join(1),
            Happens::Tick(1000),
            Happens::Send(1, b"SET k v\n"),
            Happens::Send(1, b"EXPIRE k 2\n"),
            Happens::Send(1, b"TTL k\n"),
            Happens::Tick(2999),
            Happens::Send(1, b"EXISTS k\n"),
            Happens::Tick(3000),
            Happens::Send(1, b"EXISTS k\n"),
        ],
        answers: b"ddddddddd",
        told: b"+OK\r\n:1\r\n:2\r\n:1\r\n:0\r\n",
        changes: b"SET k v ;PEXPIREAT k 3000 ;DEL k ;",
    },
    Row {
        events: &[
            Happens::Join(1),
            Happens::Send(1, b"SET s ab\n"),
            Happens::Send(1, b"SETRANGE s 4 x\n"),
            Happens::Send(1, b"RPUSH l a b a\n"),
            Happens::Send(1, b"LREM l -1 a\n"),
            Happens::Send(1, b"HSET h f 1 g 2\n"),
            Happens::Send(1, b"HDEL h f f\n"),
            Happens::Send(1, b"HGETALL h\n"),
            Happens::Send(1, b"DBSIZE\n"),
        ],
        answers: b"ddddddddd",
        told: b"+OK\r\n:5\r\n:3\r\n:1\r\n:2\r\n:1\r\n*2\r\n$1\r\ng\r\n$1\r\n2\r\n:3\r\n",
        changes: b"SET s ab ;SETRANGE s 4 x ;RPUSH l a b a ;LREM l -1 a ;HSET h f 1 g 2 ;\
            HDEL h f f ;",
    },
    Row {
        events: &[
            Happens::Join(1),
            Happens::Send(1, b"SET a 1\n"),
            Happens::Send(1, b"RENAME a a\n"),
            Happens::Send(1, b"RENAME x y\n"),
            Happens::Send(1, b"DBSIZE\n"),
            Happens::Send(1, b"SELECT 0\n"),
        ],
        answers: b"dddddd",
        told: b"+OK\r\n+OK\r\n-ERR no such key\r\n:1\r\n+OK\r\n",
        changes: b"SET a 1 ;",
    },
    Row {
        events: &[
            Happens::Join(1),
            Happens::Join(1),
            Happens::Join(2),
            Happens::Send(2, b"MSET a 1 b 2\n"),
            Happens::Send(1, b"MGET b a c\n"),
            Happens::Send(1, b"DEL a a b\n"),
            Happens::Gone(2),
            Happens::Gone(2),
            Happens::Send(2, b"GET a\n"),
        ],
        answers: b"dsdddddnn",
        told: b"*3\r\n$1\r\n2\r\n$1\r\n1\r\n$-1\r\n:2\r\n",
        changes: b"MSET a 1 b 2 ;DEL a a b ;",
    },
    Row {
        events: &[
            Happens::Join(1),
            Happens::Send(1, b"COMMAND COUNT\n"),
            Happens::Broken(1),
            Happens::Send(1, b"PING\n"),
            Happens::Broken(1),
        ],
        answers: b"dddnn",
        told: b":52\r\n-ERR Protocol error: invalid bulk length\r\n",
        changes: b"",
    },
];

#[test]
fn steps(rt: HostRuntime) -> Result<(), Fail> {
    for row in &ROWS {
        let played = play(rt.alloc(), RandomState::new(&rt)?, row.events)?;
        assert_eq!(rt; played.answers.as_slice(), row.answers);
        assert_eq!(rt; played.told.as_slice(), row.told);
        assert_eq!(rt; played.changes.as_slice(), row.changes);
    }
    Ok(())
}
