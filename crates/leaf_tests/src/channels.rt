use core_types::{Note, NoteClass, Out};
use key_events::{ChannelFault, Channels, matches};
use resp_codec::write_reply;
use sequences::{Args, Blob, NoMemory};
use std::alloc::Global;
use std::test::Fail;

// The first rows are those by which PSUBSCRIBE is described; the two channels are those of an event
// `set` of a key `a`.
#[test]
fn patterns(rt: HostRuntime) {
    let rows: [(&[u8], &[u8], bool); 32] = [
        (b"h?llo", b"hello", true),
        (b"h?llo", b"hallo", true),
        (b"h?llo", b"hllo", false),
        (b"h*llo", b"hllo", true),
        (b"h*llo", b"heeeello", true),
        (b"h*llo", b"heeeell", false),
        (b"__key*__:a", b"__keyspace@0__:a", true),
        (b"__key*__:a", b"__keyevent@0__:set", false),
        (b"", b"", true),
        (b"", b"a", false),
        (b"a", b"", false),
        (b"*", b"", true),
        (b"*", b"abc", true),
        (b"**", b"", true),
        (b"a*", b"a", true),
        (b"*a", b"a", true),
        (b"*a", b"aba", true),
        (b"*a", b"ab", false),
        (b"*ab*ab*", b"aab", false),
        (b"*ab*ab*", b"aabbab", true),
        (b"?", b"", false),
        (b"?*", b"a", true),
        (b"*?", b"", false),
        (b"??", b"a", false),
        (b"\\*", b"*", true),
        (b"\\*", b"a", false),
        (b"\\?a", b"?a", true),
        (b"\\\\", b"\\", true),
        (b"\\a", b"a", true),
        (b"a\\", b"a\\", true),
        (b"a\\", b"a", false),
        (b"*\\", b"ab\\", true),
    ];
    for (pattern, text, stands) in rows {
        assert_eq!(rt; matches(pattern, text), stands);
    }
}

// Where each star tried each place anew, this would not end.
#[test]
fn many_stars(rt: HostRuntime) {
    assert!(rt; !matches(b"*a*a*a*a*a*a*a*a*a*a*a*a*a*a*a*a*a*a*b", &[b'a'; 2_000]));
    assert!(rt; matches(b"*a*a*a*a*a*a*a*a*a*a*a*a*a*a*a*a*a*a*", &[b'a'; 2_000]));
}

// Subscribes each of these clients, until memory runs out.
fn listen(channels: &mut Channels, asked: &[(u64, &[u8], bool)]) -> Result<(), NoMemory> {
    for (client, name, pattern) in asked {
        if channels.subscribe(*client, name, *pattern) == Err(ChannelFault::Memory) {
            return Err(NoMemory);
        }
    }
    Ok(())
}

// Adds the number of a client, of one digit, and what it is told.
fn show(text: &mut Blob, out: &Out) -> Result<(), NoMemory> {
    text.push(b'0' + (out.client % 10) as u8)?;
    write_reply(text, &out.reply)
}

// What these clients are told when a key `a` is set.
fn told(alloc: Global, asked: &[(u64, &[u8], bool)]) -> Result<Blob, NoMemory> {
    let mut channels = Channels::new(alloc);
    listen(&mut channels, asked)?;
    let note = Note {
        class: NoteClass::String,
        name: Blob::from_slice(alloc, b"set")?,
        key: Blob::from_slice(alloc, b"a")?,
    };
    let outs = channels.messages(&note)?;
    let mut text = Blob::new(alloc);
    for out in outs.as_slice() {
        show(&mut text, out)?;
    }
    Ok(text)
}

const BY_CHANNEL: &[u8] = b"2*3\r\n$7\r\nmessage\r\n$18\r\n__keyevent@0__:set\r\n$1\r\na\r\n";

const BY_PATTERN: &[u8] =
    b"2*4\r\n$8\r\npmessage\r\n$10\r\n__key*__:a\r\n$16\r\n__keyspace@0__:a\r\n$3\r\nset\r\n";

const IN_ORDER: &[u8] = b"2*3\r\n$7\r\nmessage\r\n$16\r\n__keyspace@0__:a\r\n$3\r\nset\r\n\
    9*3\r\n$7\r\nmessage\r\n$16\r\n__keyspace@0__:a\r\n$3\r\nset\r\n\
    1*4\r\n$8\r\npmessage\r\n$2\r\n*a\r\n$16\r\n__keyspace@0__:a\r\n$3\r\nset\r\n\
    1*4\r\n$8\r\npmessage\r\n$1\r\n*\r\n$16\r\n__keyspace@0__:a\r\n$3\r\nset\r\n\
    9*4\r\n$8\r\npmessage\r\n$2\r\n*a\r\n$16\r\n__keyspace@0__:a\r\n$3\r\nset\r\n\
    2*3\r\n$7\r\nmessage\r\n$18\r\n__keyevent@0__:set\r\n$1\r\na\r\n\
    1*4\r\n$8\r\npmessage\r\n$1\r\n*\r\n$18\r\n__keyevent@0__:set\r\n$1\r\na\r\n";

// What is told on a channel, by a pattern, and where several listen: by channel, then by client,
// then by the age of the pattern, and those who have the channel before those who have a pattern.
#[test]
fn messages_in_order(rt: HostRuntime) -> Result<(), Fail> {
    let alloc = rt.alloc();
    let space = b"__keyspace@0__:a".as_slice();
    let event = b"__keyevent@0__:set".as_slice();
    assert_eq!(rt; told(alloc, &[])?.as_slice(), b"".as_slice());
    assert_eq!(rt; told(alloc, &[(2, event, false)])?.as_slice(), BY_CHANNEL);
    assert_eq!(rt;
        told(alloc, &[(2, b"__key*__:a", true)])?.as_slice(),
        BY_PATTERN
    );
    let asked: [(u64, &[u8], bool); 9] = [
        (9, b"*a", true),
        (9, space, false),
        (1, b"*a", true),
        (2, event, false),
        (2, space, false),
        (1, b"?", true),
        (1, b"*", true),
        (2, space, false),
        (3, b"*", false),
    ];
    assert_eq!(rt; told(alloc, &asked)?.as_slice(), IN_ORDER);
    Ok(())
}

// What subscribing answers.
type Answer = Result<u64, ChannelFault>;

// Gives a client this many channels, each named by its number.
fn fill(channels: &mut Channels, client: u64, many: u16) -> Answer {
    let mut last = Ok(0);
    for number in 0..many {
        last = channels.subscribe(client, &number.to_be_bytes(), false);
    }
    last
}

// What a client is answered that has one channel less than it may: a pattern more, a channel that
// it has, a new one, a pattern with a class, another client; and a new one in place of an old one.
fn at_the_edge(channels: &mut Channels) -> [Answer; 8] {
    [
        fill(channels, 1, 1_023),
        channels.subscribe(1, b"a*", true),
        channels.subscribe(1, &[0, 7], false),
        channels.subscribe(1, b"a*", false),
        channels.subscribe(1, b"a[bc]", true),
        channels.subscribe(2, b"a[bc]", false),
        Ok(channels.unsubscribe(1, &[0, 7], false)),
        channels.subscribe(1, b"a*", false),
    ]
}

fn edge(alloc: Global) -> [Answer; 8] {
    let mut channels = Channels::new(alloc);
    let answers = at_the_edge(&mut channels);
    drop(channels);
    answers
}

#[test]
fn no_client_has_more_than_1024(rt: HostRuntime) {
    let full = Err(ChannelFault::TooMany);
    let class = Err(ChannelFault::Class);
    assert_eq!(rt;
        edge(rt.alloc()),
        [
            Ok(1_023),
            Ok(1_024),
            Ok(1_024),
            full,
            class,
            Ok(1),
            Ok(1_023),
            Ok(1_024)
        ]
    );
}

// Adds what a client has of one sort: the oldest, a colon, and each with a comma behind it.
fn show_names(
    text: &mut Blob,
    channels: &Channels,
    client: u64,
    pattern: bool,
) -> Result<(), NoMemory> {
    if let Some(oldest) = channels.first(client, pattern) {
        text.push_slice(oldest.as_slice())?;
    }
    text.push(b':')?;
    for name in channels.names(client, pattern)?.from_place(0) {
        text.push_slice(name)?;
        text.push(b',')?;
    }
    text.push(b'\n')
}

// Adds what the first two clients have, and their counts.
fn show_both(text: &mut Blob, channels: &Channels) -> Result<[u64; 2], NoMemory> {
    show_names(text, channels, 1, false)?;
    show_names(text, channels, 1, true)?;
    show_names(text, channels, 2, false)?;
    Ok([channels.count(1), channels.count(2)])
}

// The answers of two calls of `unsubscribe`, of a name that is there and of one that is not, and
// the counts before them, behind them, and where the first client is dropped.
type Counts = [[u64; 2]; 4];

fn show_steps(text: &mut Blob, channels: &mut Channels) -> Result<Counts, NoMemory> {
    let before = show_both(text, channels)?;
    let left = [
        channels.unsubscribe(1, b"b", false),
        channels.unsubscribe(2, b"b", false),
    ];
    let behind = show_both(text, channels)?;
    channels.drop_client(1);
    Ok([before, left, behind, show_both(text, channels)?])
}

fn steps(alloc: Global) -> Result<(Blob, Counts), NoMemory> {
    let mut text = Blob::new(alloc);
    let mut channels = Channels::new(alloc);
    let asked: [(u64, &[u8], bool); 5] = [
        (1, b"b", false),
        (1, b"a", false),
        (2, b"a", false),
        (1, b"a*", true),
        (1, b"b", false),
    ];
    listen(&mut channels, &asked)?;
    let counts = show_steps(&mut text, &mut channels)?;
    Ok((text, counts))
}

// With ample memory each call that takes some answers what it is for. What one client has is the
// oldest first, and a client that goes takes nothing from another.
#[test]
fn ample(rt: HostRuntime) -> Result<(), Fail> {
    let (text, counts) = steps(rt.alloc())?;
    assert_eq!(rt;
        text.as_slice(),
        b"b:b,a,\na*:a*,\na:a,\na:a,\na*:a*,\na:a,\n:\n:\na:a,\n".as_slice()
    );
    assert_eq!(rt; counts, [[3, 1], [2, 1], [2, 1], [0, 1]]);
    Ok(())
}
