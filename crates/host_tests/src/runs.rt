use core_types::{BadRequest, NoMemory};
use disk_model::{FileName, MemoryDir};
use io_edges::{FixedClock, MemorySink, MemorySource};
use server_shell::{Ended, Job, Status, WordsFault, modhost, read_words, status_code};
use std::alloc::Global;
use std::hash::RandomState;
use std::test::Fail;

const PIPE: &[&str] = &["pipe", "d"];

// A SET and a GET, which give 5 and 7 bytes. Of the SET the log has 27 bytes.
const SET_AND_GET: &[u8] =
    b"*3\r\n$3\r\nset\r\n$1\r\na\r\n$1\r\n1\r\n*2\r\n$3\r\nGET\r\n$1\r\na\r\n";

// The calls that fail, of the directory, the source and the sink, counted from 1; 0 is none.
#[derive(Clone, Copy)]
struct Fails {
    dir: u64,
    source: u64,
    sink: u64,
}

const NONE: Fails = Fails {
    dir: 0,
    source: 0,
    sink: 0,
};

// How a run ended: its status, how many bytes were sent, and how many the log has.
#[derive(Clone, Copy, Debug, PartialEq)]
struct End {
    status: Status,
    sent: usize,
    log: Option<usize>,
}

// Runs the program over a new folder and a clock that gives 1000, 1000 and then 2000.
fn start(
    alloc: Global,
    hashing: RandomState,
    words: &[&str],
    input: &[u8],
    fails: Fails,
    sink: &mut MemorySink,
) -> Result<Ended<MemoryDir>, NoMemory> {
    let dir = MemoryDir::new(alloc, &[fails.dir])?;
    let mut source = MemorySource::new(alloc, input, &[fails.source])?;
    let mut clock = FixedClock::new(alloc, &[1000, 1000, 2000])?;
    Ok(modhost(alloc, hashing, words, dir, &mut source, sink, &mut clock))
}

// How such a run ends.
fn run(
    alloc: Global,
    hashing: RandomState,
    words: &[&str],
    input: &[u8],
    fails: Fails,
) -> Result<End, NoMemory> {
    let mut sink = MemorySink::new(alloc, &[fails.sink])?;
    let ended = start(alloc, hashing, words, input, fails, &mut sink)?;
    Ok(End {
        status: ended.status,
        sent: sink.content().len(),
        log: ended.dir.content(FileName::Log).map(|bytes| bytes.len()),
    })
}

// Whether `pipe d` without a fault sends these bytes and leaves this log.
fn gives(
    alloc: Global,
    hashing: RandomState,
    input: &[u8],
    sent: &[u8],
    log: &[u8],
) -> Result<bool, NoMemory> {
    let mut sink = MemorySink::new(alloc, &[0])?;
    let ended = start(alloc, hashing, PIPE, input, NONE, &mut sink)?;
    Ok(
        ended.status == Status::Done
            && sink.content() == sent
            && ended.dir.content(FileName::Log) == Some(log),
    )
}

// Over a new folder, with all memory and no fault, requests are served. A key that is due goes
// before the request of that moment, and the log has its DEL.
#[test]
fn ample(rt: HostRuntime) -> Result<(), Fail> {
    let rows: [(&[u8], &[u8], &[u8]); 2] = [
        (
            SET_AND_GET,
            b"+OK\r\n$1\r\n1\r\n",
            b"*3\r\n$3\r\nSET\r\n$1\r\na\r\n$1\r\n1\r\n",
        ),
        (
            b"SET a 1\nEXPIRE a 1\nGET a\n",
            b"+OK\r\n:1\r\n$-1\r\n",
            b"*3\r\n$3\r\nSET\r\n$1\r\na\r\n$1\r\n1\r\n\
              *3\r\n$9\r\nPEXPIREAT\r\n$1\r\na\r\n$4\r\n2000\r\n\
              *2\r\n$3\r\nDEL\r\n$1\r\na\r\n",
        ),
    ];
    for (input, sent, log) in rows {
        let hashing = RandomState::new(&rt)?;
        assert!(rt; gives(rt.alloc(), hashing, input, sent, log)?);
    }
    Ok(())
}

// The same where calls fail.
fn failing(
    alloc: Global,
    hashing: RandomState,
    dir: u64,
    source: u64,
    sink: u64,
) -> Result<End, NoMemory> {
    run(
        alloc,
        hashing,
        PIPE,
        SET_AND_GET,
        Fails { dir, source, sink },
    )
}

// Each call fails in turn: what was served by then stays, and no reply goes out before its sync.
#[test]
fn a_call_fails(rt: HostRuntime) -> Result<(), Fail> {
    let rows = [
        // Four calls open the folder.
        (1, 0, 0, Status::DirFault, 0, None),
        (2, 0, 0, Status::DirFault, 0, None),
        (3, 0, 0, Status::DirFault, 0, None),
        (4, 0, 0, Status::DirFault, 0, Some(0)),
        // The append of the SET, its sync, and the sync at the GET.
        (5, 0, 0, Status::DirFault, 0, Some(13)),
        (6, 0, 0, Status::DirFault, 0, Some(27)),
        (7, 0, 0, Status::DirFault, 5, Some(27)),
        (8, 0, 0, Status::Done, 12, Some(27)),
        // The requests come in one piece, and then the end.
        (0, 1, 0, Status::ReadFault, 0, Some(0)),
        (0, 2, 0, Status::ReadFault, 12, Some(27)),
        (0, 3, 0, Status::Done, 12, Some(27)),
        // A piece for each reply.
        (0, 0, 1, Status::WriteFault, 0, Some(27)),
        (0, 0, 2, Status::WriteFault, 5, Some(27)),
        (0, 0, 3, Status::Done, 12, Some(27)),
    ];
    for (dir, source, sink, status, sent, log) in rows {
        let hashing = RandomState::new(&rt)?;
        let end = End { status, sent, log };
        assert_eq!(rt; failing(rt.alloc(), hashing, dir, source, sink), Ok(end));
    }
    Ok(())
}

// A stream that does not end with a whole request, and words of no form.
#[test]
fn other_ends(rt: HostRuntime) -> Result<(), Fail> {
    let bad = Status::Protocol(BadRequest::BulkLength, 12);
    let rows: [(&[&str], &[u8], Status, usize, Option<usize>); 7] = [
        // `+OK`, and the error of 42 bytes.
        (PIPE, b"SET a 1\n*1\r\n$x\r\nSET b 1\n", bad, 47, Some(27)),
        (PIPE, b"SET a 1\n*1\r\n$", Status::CutOff(5), 5, Some(27)),
        (PIPE, b"quit\nSET a 1\n", Status::Done, 5, Some(0)),
        (&["check", "d"], b"SET a 1\n", Status::Done, 19, None),
        (&[], b"SET a 1\n", Status::Usage(0), 0, None),
        (&["pipe"], b"SET a 1\n", Status::Usage(1), 0, None),
        (&["pipe", "d", "e"], b"SET a 1\n", Status::Usage(2), 0, None),
    ];
    for (words, input, status, sent, log) in rows {
        let hashing = RandomState::new(&rt)?;
        let end = End { status, sent, log };
        assert_eq!(rt; run(rt.alloc(), hashing, words, input, NONE), Ok(end));
    }
    Ok(())
}

// The lines of ends that no input reaches, and their numbers.
#[test]
fn ends_are_told(rt: HostRuntime) -> Result<(), Fail> {
    let rows = [
        (Status::Memory, 6, "out of memory"),
        (Status::TooLong, 10, "input too long"),
        (Status::NumbersSpent, 11, "numbers spent"),
        (Status::NotBuilt(1), 13, "not built 1"),
    ];
    for (status, code, line) in rows {
        assert_eq!(rt; status_code(&status), code);
        let text = status.to_string(rt.alloc())?;
        assert_eq!(rt; text.as_str(), line);
    }
    assert_eq!(rt; read_words(PIPE), Ok(Job::Pipe));
    assert_eq!(rt; read_words(&["d"]), Err(WordsFault::Usage(0)));
    Ok(())
}
