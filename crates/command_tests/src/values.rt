//! Commands on strings, lists and hashes, and their replies.

use crate::serving::{Served, Shown};
use core_types::NoMemory;
use std::alloc::Global;
use std::hash::RandomState;
use std::test::Fail;

// A line, and the reply to it.
type Row = (&'static [u8], &'static [u8]);

const WRONG_TYPE: &[u8] = b"-WRONGTYPE Operation against a key holding the wrong kind of value";

const NO_NUMBER: &[u8] = b"-ERR value is not an integer or out of range";

const OVERFLOW: &[u8] = b"-ERR increment or decrement would overflow";

// The line of the first row whose reply is another.
fn wrong_row(
    alloc: Global,
    served: &mut Served,
    rows: &[Row],
) -> Result<Option<&'static [u8]>, NoMemory> {
    for (line, reply) in rows {
        let given = served.serve(alloc, 0, line, Shown::Reply)?;
        if given.as_slice() != *reply {
            return Ok(Some(*line));
        }
    }
    Ok(None)
}

// The same on no keys.
fn first_wrong(
    alloc: Global,
    hashing: RandomState,
    rows: &[Row],
) -> Result<Option<&'static [u8]>, NoMemory> {
    let mut served = Served::new(alloc, hashing);
    let wrong = wrong_row(alloc, &mut served, rows);
    drop(served);
    wrong
}

const STRINGS: [Row; 20] = [
    (b"GET s", b"null"),
    (b"SETNX s a", b":1"),
    (b"SETNX s b", b":0"),
    (b"SET s b nx", b"null"),
    (b"SET s c Xx", b"+OK"),
    (b"GETSET s ab", b"$c"),
    (b"SETRANGE s 4 x", b":5"),
    (b"STRLEN s", b":5"),
    (b"SETRANGE s -1 x", b"-ERR offset is out of range"),
    (b"GET s", b"$ab\0\0x"),
    (b"APPEND s yz", b":7"),
    (b"GETRANGE s 4 6", b"$xyz"),
    (b"SET s 9", b"+OK"),
    (b"INCR s", b":10"),
    (b"DECR s", b":9"),
    (b"INCRBY s -10", b":-1"),
    (b"DECRBY s 1", b":-2"),
    (b"GET s", b"$-2"),
    (b"RPUSH l a", b":1"),
    (b"SET l v xx", b"+OK"),
];

// Numbers at both ends, ranges with every sign, and the order of refusals.
const LIMITS: [Row; 24] = [
    (b"SET n 9223372036854775807", b"+OK"),
    (b"INCR n", OVERFLOW),
    (b"INCRBY n 0", b":9223372036854775807"),
    (b"INCRBY n -9223372036854775808", b":-1"),
    (b"DECRBY n 9223372036854775807", b":-9223372036854775808"),
    (b"DECR n", OVERFLOW),
    (
        b"DECRBY n -9223372036854775808",
        b"-ERR decrement would overflow",
    ),
    (b"INCRBY n 9223372036854775808", NO_NUMBER),
    (b"GET n", b"$-9223372036854775808"),
    (b"SET n abcde", b"+OK"),
    (b"DECRBY n -9223372036854775808", NO_NUMBER),
    (b"GETRANGE n 1 3", b"$bcd"),
    (b"GETRANGE n -3 -2", b"$cd"),
    (b"GETRANGE n -9 1", b"$ab"),
    (b"GETRANGE n 3 9", b"$de"),
    (b"GETRANGE n 3 -3", b"$"),
    (b"GETRANGE n 5 9", b"$"),
    (b"GETRANGE n 0 x", NO_NUMBER),
    (b"SET n v NX XX", b"-ERR syntax error"),
    (
        b"SETRANGE n 536870912 x",
        b"-ERR string exceeds maximum allowed size (536870912 bytes)",
    ),
    (b"SETRANGE n 536870912 ", b":5"),
    (b"RPUSH l a", b":1"),
    (b"INCRBY l 1", WRONG_TYPE),
    (b"INCRBY l x", NO_NUMBER),
];

#[test]
fn strings(rt: HostRuntime) -> Result<(), Fail> {
    let hashing = RandomState::new(&rt)?;
    assert_eq!(rt; first_wrong(rt.alloc(), hashing, &STRINGS)?, None);
    assert_eq!(rt; first_wrong(rt.alloc(), hashing, &LIMITS)?, None);
    Ok(())
}

const LISTS: [Row; 22] = [
    (b"LPOP l", b"null"),
    (b"LSET l x v", NO_NUMBER),
    (b"LSET l 0 v", b"-ERR no such key"),
    (b"RPUSH l a b a", b":3"),
    (b"LREM l -1 a", b":1"),
    (b"LRANGE l 0 -1", b"* a b"),
    (b"LSET l 5 x", b"-ERR index out of range"),
    (b"LPUSH l c d", b":4"),
    (b"LRANGE l -3 9", b"* c a b"),
    (b"LINDEX l -4", b"$d"),
    (b"LINDEX l -5", b"null"),
    (b"LSET l -1 e", b"+OK"),
    (b"LREM l -9223372036854775808 c", b":1"),
    (b"LLEN l", b":3"),
    (b"LTRIM l 1 -1", b"+OK"),
    (b"RPOP l", b"$e"),
    (b"LPOP l", b"$a"),
    (b"LTRIM l 0 0", b"+OK"),
    (b"LLEN l", b":0"),
    (b"SET s v", b"+OK"),
    (b"LLEN s", WRONG_TYPE),
    (b"LSET s x v", NO_NUMBER),
];

#[test]
fn lists(rt: HostRuntime) -> Result<(), Fail> {
    let hashing = RandomState::new(&rt)?;
    assert_eq!(rt; first_wrong(rt.alloc(), hashing, &LISTS)?, None);
    Ok(())
}

const HASHES: [Row; 24] = [
    (b"HGET h f", b"null"),
    (b"HSET h f 1 g 2 f 3", b":2"),
    (
        b"HSET h f 1 g",
        b"-ERR wrong number of arguments for 'hset' command",
    ),
    (b"HGETALL h", b"* f 3 g 2"),
    (b"HMSET h i abc", b"+OK"),
    (b"HSETNX h i d", b":0"),
    (b"HSETNX h j d", b":1"),
    (b"HGET h i", b"$abc"),
    (b"HMGET h j x f", b"* d - 3"),
    (b"HLEN h", b":4"),
    (b"HEXISTS h x", b":0"),
    (b"HSTRLEN h i", b":3"),
    (b"HKEYS h", b"* f g i j"),
    (b"HVALS h", b"* 3 2 abc d"),
    (b"HINCRBY h g -5", b":-3"),
    (b"HINCRBY h i 1", b"-ERR hash value is not an integer"),
    (b"HINCRBY h g -9223372036854775808", OVERFLOW),
    (b"HDEL h f f x", b":1"),
    (b"HDEL h g i j", b":3"),
    (b"HLEN h", b":0"),
    (b"EXISTS h", b":0"),
    (b"RPUSH l a", b":1"),
    (b"HINCRBY l f x", NO_NUMBER),
    (b"HGET l f", WRONG_TYPE),
];

#[test]
fn hashes(rt: HostRuntime) -> Result<(), Fail> {
    let hashing = RandomState::new(&rt)?;
    assert_eq!(rt; first_wrong(rt.alloc(), hashing, &HASHES)?, None);
    Ok(())
}
