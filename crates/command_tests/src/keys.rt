//! Commands on the map of keys, with their changes and events, and deadlines.

use crate::serving::{Sample, Served, Shown};
use core_types::{Blob, NoMemory, Value};
use key_cmds::expire_first;
use std::alloc::Global;
use std::hash::RandomState;
use std::test::Fail;
use type_ids::TypeName;

// What a line gives at a moment.
#[derive(Drop)]
struct Row {
    moment: u64,
    line: &'static [u8],
    given: &'static [u8],
}

// A row at moment 1000.
fn at_once(line: &'static [u8], given: &'static [u8]) -> Row {
    Row {
        moment: 1000,
        line,
        given,
    }
}

// Serves rows, and tells the line of the first that gave something else.
fn wrong_row(
    alloc: Global,
    served: &mut Served,
    rows: &[Row],
) -> Result<Option<&'static [u8]>, NoMemory> {
    for row in rows {
        let given = served.serve(alloc, row.moment, row.line, Shown::All)?;
        if given.as_slice() != row.given {
            return Ok(Some(row.line));
        }
    }
    Ok(None)
}

// The same on no keys.
fn first_wrong(
    alloc: Global,
    hashing: RandomState,
    rows: &[Row],
) -> Result<Option<&'static [u8]>, NoMemory> {
    let mut served = Served::new(alloc, hashing);
    let wrong = wrong_row(alloc, &mut served, rows);
    drop(served);
    wrong
}

// Every command with ample memory: a command on each kind of value, DEL of a key named twice,
// RENAME with a deadline, and a deadline that comes and goes.
#[test]
fn ample(rt: HostRuntime) -> Result<(), Fail> {
    let rows = [
        at_once(b"SET s ab", b"+OK > SET s ab !set:s"),
        at_once(b"SETRANGE s 4 x", b":5 > SETRANGE s 4 x !setrange:s"),
        at_once(b"STRLEN s", b":5"),
        at_once(b"SETRANGE s -1 x", b"-ERR offset is out of range"),
        at_once(b"RPUSH l a b a", b":3 > RPUSH l a b a !rpush:l"),
        at_once(b"LREM l -1 a", b":1 > LREM l -1 a !lrem:l"),
        at_once(b"LRANGE l 0 -1", b"* a b"),
        at_once(b"LSET l 5 x", b"-ERR index out of range"),
        at_once(b"HSET h f 1 g 2", b":2 > HSET h f 1 g 2 !hset:h"),
        at_once(b"HDEL h f f", b":1 > HDEL h f f !hdel:h"),
        at_once(b"HGETALL h", b"* g 2"),
        at_once(
            b"MSET a 1 b 2 a 3",
            b"+OK > MSET a 1 b 2 a 3 !set:a !set:b !set:a",
        ),
        at_once(
            b"MSET a 1 b",
            b"-ERR wrong number of arguments for 'mset' command",
        ),
        at_once(b"MGET a l b x", b"* 3 - 2 -"),
        at_once(b"EXISTS a a x", b":2"),
        at_once(b"TYPE l", b"+list"),
        at_once(b"TYPE x", b"+none"),
        at_once(b"DBSIZE", b":5"),
        at_once(b"RENAME a a", b"+OK"),
        at_once(b"RENAME x y", b"-ERR no such key"),
        at_once(b"EXPIRE a 2", b":1 > PEXPIREAT a 3000 !expire:a"),
        at_once(
            b"RENAME a c",
            b"+OK > RENAME a c !rename_from:a !rename_to:c",
        ),
        at_once(b"PTTL c", b":2000"),
        at_once(b"SET c 4", b"+OK > SET c 4 !set:c"),
        at_once(b"TTL c", b":-1"),
        at_once(b"DEL c x b c", b":2 > DEL c x b c !del:c !del:b"),
        at_once(b"DEL c x", b":0"),
        at_once(b"TTL c", b":-2"),
    ];
    let hashing = RandomState::new(&rt)?;
    assert_eq!(rt; first_wrong(rt.alloc(), hashing, &rows)?, None);
    Ok(())
}

// Half a second counts as one, a deadline that is not after the moment removes its key, and one
// that is out of range is refused.
#[test]
fn deadlines(rt: HostRuntime) -> Result<(), Fail> {
    let rows = [
        at_once(b"SET k v", b"+OK > SET k v !set:k"),
        at_once(b"PEXPIREAT k 2500", b":1 > PEXPIREAT k 2500 !expire:k"),
        at_once(b"TTL k", b":2"),
        Row {
            moment: 1001,
            line: b"TTL k",
            given: b":1",
        },
        Row {
            moment: 2001,
            line: b"TTL k",
            given: b":0",
        },
        Row {
            moment: 2600,
            line: b"PTTL k",
            given: b":0",
        },
        at_once(b"PERSIST k", b":1 > PERSIST k !persist:k"),
        at_once(b"PERSIST k", b":0"),
        at_once(
            b"EXPIRE k x",
            b"-ERR value is not an integer or out of range",
        ),
        at_once(
            b"EXPIRE x 9223372036854775807",
            b"-ERR invalid expire time in 'expire' command",
        ),
        at_once(b"EXPIRE x 1", b":0"),
        at_once(b"PEXPIREAT k 1000", b":1 > DEL k !del:k"),
        at_once(b"EXISTS k", b":0"),
    ];
    let hashing = RandomState::new(&rt)?;
    assert_eq!(rt; first_wrong(rt.alloc(), hashing, &rows)?, None);
    Ok(())
}

// Gives `k` a value of a module.
fn put_native(alloc: Global, served: &mut Served) -> Result<(), NoMemory> {
    if let Ok(name) = TypeName::new(b"hellotype") {
        let key = Blob::from_slice(alloc, b"k")?;
        let _ = served.keys.put(key, Value::Native(Sample { name }));
    }
    Ok(())
}

// What TYPE and then SET give where a key holds a value of a module.
fn type_and_set(alloc: Global, served: &mut Served, text: &mut Blob) -> Result<(), NoMemory> {
    put_native(alloc, served)?;
    for line in [b"TYPE k".as_slice(), b"SET k v".as_slice()] {
        let given = served.serve(alloc, 0, line, Shown::All)?;
        text.push_slice(given.as_slice())?;
        text.push(b';')?;
    }
    Ok(())
}

// The same on no other keys, and how many such values left.
fn native(alloc: Global, hashing: RandomState, text: &mut Blob) -> Result<usize, NoMemory> {
    let mut served = Served::new(alloc, hashing);
    let done = type_and_set(alloc, &mut served, text);
    let left = served.left.len();
    drop(served);
    done?;
    Ok(left)
}

// A value of a module tells the name of its type, and is handed out where its key is set.
#[test]
fn natives(rt: HostRuntime) -> Result<(), Fail> {
    let mut text = Blob::new(rt.alloc());
    let left = native(rt.alloc(), RandomState::new(&rt)?, &mut text)?;
    assert_eq!(rt;
        text.as_slice(),
        b"+hellotype;+OK > SET k v !set:k;".as_slice()
    );
    assert_eq!(rt; left, 1);
    Ok(())
}

const DATED: [&[u8]; 4] = [
    b"MSET b 1 a 2 c 3",
    b"PEXPIREAT b 20",
    b"PEXPIREAT a 20",
    b"PEXPIREAT c 10",
];

// Adds the names of the keys that go at a moment, where `a` and `b` are due at 20 and `c` at 10.
fn add_due(
    alloc: Global,
    served: &mut Served,
    moment: u64,
    gone: &mut Blob,
) -> Result<(), NoMemory> {
    for line in DATED {
        let _ = served.serve(alloc, 0, line, Shown::Reply)?;
    }
    for _ in 0..3 {
        let expired = expire_first(alloc, &mut served.keys, moment, &mut served.left)?;
        if let Some(expired) = expired {
            gone.push_slice(expired.note.key.as_slice())?;
        }
    }
    Ok(())
}

fn due(alloc: Global, hashing: RandomState, moment: u64) -> Result<Blob, NoMemory> {
    let mut served = Served::new(alloc, hashing);
    let mut gone = Blob::new(alloc);
    let done = add_due(alloc, &mut served, moment, &mut gone);
    drop(served);
    done?;
    Ok(gone)
}

// Keys go by their deadlines, and at one deadline by their names; the last that is due goes too.
#[test]
fn due_in_order(rt: HostRuntime) -> Result<(), Fail> {
    let hashing = RandomState::new(&rt)?;
    assert_eq!(rt; due(rt.alloc(), hashing, 9)?.as_slice(), b"".as_slice());
    assert_eq!(rt; due(rt.alloc(), hashing, 10)?.as_slice(), b"c".as_slice());
    assert_eq!(rt; due(rt.alloc(), hashing, 20)?.as_slice(), b"cab".as_slice());
    Ok(())
}
