use io_edges::{
    Clock, FixedClock, MemorySink, MemorySource, RealClock, RealSink, RealSource, Sink, Source,
};
use sequences::{Blob, NoMemory};
use std::alloc::Global;
use std::cell::Cell;
use std::fs::{self, File};
use std::io::{self, ErrorKind, Read, Write};
use std::rt;
use std::test::Fail;
use std::time::Duration;

// What calls answered, `None` for a fault, and whether the bytes were those that are wanted.
type Answers<const N: usize> = ([Option<usize>; N], bool);

// Five calls of `take` with room for two bytes.
fn takes<S: Source>(alloc: Global, source: &mut S, want: &[u8]) -> Result<Answers<5>, NoMemory> {
    let mut answers = [None; 5];
    let mut bytes = Blob::new(alloc);
    let mut into = [0u8; 2];
    for call in 0..5 {
        if let Ok(count) = source.take(&mut into) {
            bytes.push_slice(&into[..count])?;
            answers[call] = Some(count);
        }
    }
    Ok((answers, bytes.as_slice() == want))
}

// Three calls of `put`.
fn puts<K: Sink>(sink: &mut K) -> [Option<usize>; 3] {
    [
        sink.put(b"ab").ok(),
        sink.put(b"c").ok(),
        sink.put(b"de").ok(),
    ]
}

// Four readings.
fn readings<C: Clock>(clock: &mut C) -> [u64; 4] {
    [clock.now(), clock.now(), clock.now(), clock.now()]
}

fn memory_takes(alloc: Global, fails: &[u64]) -> Result<Answers<5>, NoMemory> {
    takes(alloc, &mut MemorySource::new(alloc, b"abc", fails)?, b"abc")
}

fn memory_puts(alloc: Global, fails: &[u64], want: &[u8]) -> Result<Answers<3>, NoMemory> {
    let mut sink = MemorySink::new(alloc, fails)?;
    let answers = puts(&mut sink);
    Ok((answers, sink.content() == want))
}

fn fixed_readings(alloc: Global, given: &[u64]) -> Result<[u64; 4], NoMemory> {
    Ok(readings(&mut FixedClock::new(alloc, given)?))
}

// With all memory, each object in memory does what it is there for.
#[test]
fn ample(rt: HostRuntime) -> Result<(), Fail> {
    let alloc = rt.alloc();
    let taken = ([Some(2), Some(1), Some(0), Some(0), Some(0)], true);
    assert_eq!(rt; memory_takes(alloc, &[])?, taken);
    let put = ([Some(2), Some(1), Some(2)], true);
    assert_eq!(rt; memory_puts(alloc, &[], b"abcde")?, put);
    assert_eq!(rt; fixed_readings(alloc, &[7, 5])?, [7, 5, 5, 5]);
    assert_eq!(rt; fixed_readings(alloc, &[])?, [0, 0, 0, 0]);
    Ok(())
}

// The listed calls fail, and the bytes are those of the others.
#[test]
fn listed_calls_fail(rt: HostRuntime) -> Result<(), Fail> {
    let alloc = rt.alloc();
    let taken = ([None, Some(2), None, Some(1), Some(0)], true);
    assert_eq!(rt; memory_takes(alloc, &[3, 1])?, taken);
    let put = ([Some(2), None, Some(2)], true);
    assert_eq!(rt; memory_puts(alloc, &[2, 9], b"abde")?, put);
    Ok(())
}

fn file_puts(rt: &HostRuntime, file: &str) -> io::Result<[Option<usize>; 3]> {
    Ok(puts(&mut RealSink::new(File::create(rt, file)?)))
}

fn file_takes(rt: &HostRuntime, file: &str, want: &[u8]) -> io::Result<Answers<5>> {
    let mut source = RealSource::new(File::open(rt, file)?);
    match takes(rt.alloc(), &mut source, want) {
        Ok(answers) => Ok(answers),
        Err(NoMemory) => Err(io::Error::from(ErrorKind::OutOfMemory)),
    }
}

// A file is written and read again. A folder can be neither: each call is a fault.
#[test]
fn files(rt: HostRuntime) -> Result<(), Fail> {
    assert_eq!(rt; file_puts(&rt, "edges")?, [Some(2), Some(1), Some(2)]);
    let taken = ([Some(2), Some(2), Some(1), Some(0), Some(0)], true);
    assert_eq!(rt; file_takes(&rt, "edges", b"abcde")?, taken);
    fs::remove_file(&rt, "edges")?;
    assert_eq!(rt; file_takes(&rt, "/", b"")?, ([None; 5], true));
    let mut closed = RealSink::new(File::open(&rt, "/")?);
    assert_eq!(rt; puts(&mut closed), [None; 3]);
    Ok(())
}

// A stream of which a signal interrupts each second call, the first among them. It gives one byte,
// and takes one or none.
#[derive(Drop)]
struct Interrupted {
    calls: u64,
    takes: usize,
}

impl Interrupted {
    fn new(takes: usize) -> Interrupted {
        Interrupted { calls: 0, takes }
    }

    fn call(&mut self) -> io::Result<()> {
        self.calls = self.calls.saturating_add(1);
        if self.calls % 2 == 1 {
            return Err(io::Error::from(ErrorKind::Interrupted));
        }
        Ok(())
    }
}

impl Read for Interrupted {
    fn read(&mut self, buf: &mut [u8]) -> io::Result<usize> {
        self.call()?;
        match buf {
            [first, ..] => {
                *first = b'a';
                Ok(1)
            }
            [] => Ok(0),
        }
    }
}

impl Write for Interrupted {
    fn write(&mut self, buf: &[u8]) -> io::Result<usize> {
        self.call()?;
        Ok(buf.len().min(self.takes))
    }

    fn flush(&mut self) -> io::Result<()> {
        Ok(())
    }
}

// What was interrupted is made again, and a write that takes nothing is a fault.
#[test]
fn interrupted_calls_are_made_again(rt: HostRuntime) -> Result<(), Fail> {
    let mut source = RealSource::new(Interrupted::new(0));
    let taken = ([Some(1); 5], true);
    assert_eq!(rt; takes(rt.alloc(), &mut source, b"aaaaa")?, taken);
    assert_eq!(rt; puts(&mut RealSink::new(Interrupted::new(1))), [Some(1); 3]);
    assert_eq!(rt; puts(&mut RealSink::new(Interrupted::new(0))), [None; 3]);
    Ok(())
}

// A system clock that fails at each second call, the first among them, and else goes on by 1.5 ms.
#[derive(Drop)]
struct Failing {
    calls: Cell<u64>,
}

impl rt::Clock for Failing {
    fn monotonic(&self) -> io::Result<Duration> {
        Err(io::Error::from(ErrorKind::Other))
    }

    fn since_1970(&self) -> io::Result<Duration> {
        let calls = self.calls.get().saturating_add(1);
        self.calls.set(calls);
        if calls % 2 == 1 {
            return Err(io::Error::from(ErrorKind::Other));
        }
        Ok(Duration::from_micros((calls / 2).saturating_mul(1500)))
    }
}

// Where the system's clock fails its last reading comes again, at first 0. The real one is past the
// year 2020.
#[test]
fn clocks(rt: HostRuntime) -> Result<(), Fail> {
    let failing = Failing {
        calls: Cell::new(0),
    };
    assert_eq!(rt; readings(&mut RealClock::new(failing)), [0, 1, 1, 3]);
    let [first, ..] = readings(&mut RealClock::new(rt));
    assert!(rt; first > 1_577_836_800_000);
    Ok(())
}
