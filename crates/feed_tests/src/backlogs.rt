use crate::sets::one_set;
use core_types::{Blob, NoMemory, Sequence};
use replica_feed::{Backlog, Since, write_frame};
use std::alloc::Global;
use std::test::Fail;

// A run of six events from number 2 on, of which the second and the fifth set `a` and `b`.
fn run(alloc: Global) -> Result<Backlog, NoMemory> {
    let quiet = Sequence::new(alloc);
    let mut backlog = Backlog::new(alloc, 9, 2);
    backlog.push(&quiet)?;
    backlog.push(&one_set(alloc, b"a")?)?;
    backlog.push(&quiet)?;
    backlog.push(&quiet)?;
    backlog.push(&one_set(alloc, b"b")?)?;
    backlog.push(&quiet)?;
    Ok(backlog)
}

// What comes since a number: a frame's text, or in words.
fn since(alloc: Global, from: u64) -> Result<Blob, NoMemory> {
    let mut text = Blob::new(alloc);
    match run(alloc)?.since(from)? {
        Since::Frame(frame) => match write_frame(alloc, &mut text, &frame) {
            Ok(()) => {}
            Err(_) => return Err(NoMemory),
        },
        Since::Caught => text.push_slice(b"caught")?,
        Since::Behind(first) => text.push_slice(format!(in alloc; "behind {first}")?.as_bytes())?,
    }
    Ok(text)
}

fn bounds(alloc: Global) -> Result<(u64, u64, u64), NoMemory> {
    let backlog = run(alloc)?;
    Ok((backlog.run(), backlog.first(), backlog.end()))
}

const ROWS: [(u64, &[u8]); 8] = [
    (0, b"behind 2"),
    (1, b"behind 2"),
    (
        2,
        b"*5\r\n$4\r\nUNIT\r\n$1\r\n9\r\n$1\r\n2\r\n$1\r\n4\r\n$27\r\n\
        *3\r\n$3\r\nSET\r\n$1\r\na\r\n$1\r\n1\r\n\r\n",
    ),
    (
        3,
        b"*5\r\n$4\r\nUNIT\r\n$1\r\n9\r\n$1\r\n3\r\n$1\r\n4\r\n$27\r\n\
        *3\r\n$3\r\nSET\r\n$1\r\na\r\n$1\r\n1\r\n\r\n",
    ),
    (
        4,
        b"*5\r\n$4\r\nUNIT\r\n$1\r\n9\r\n$1\r\n4\r\n$1\r\n7\r\n$27\r\n\
        *3\r\n$3\r\nSET\r\n$1\r\nb\r\n$1\r\n1\r\n\r\n",
    ),
    (
        7,
        b"*5\r\n$4\r\nUNIT\r\n$1\r\n9\r\n$1\r\n7\r\n$1\r\n8\r\n$0\r\n\r\n",
    ),
    (8, b"caught"),
    (9, b"caught"),
];

// What a run gives since each number.
#[test]
fn since_each_number(rt: HostRuntime) -> Result<(), Fail> {
    for (from, want) in ROWS {
        assert!(rt; since(rt.alloc(), from)?.as_slice() == want);
    }
    assert!(rt; bounds(rt.alloc())? == (9, 2, 8));
    Ok(())
}
