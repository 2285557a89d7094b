use crate::sets::one_set;
use core_types::{Blob, NoMemory, Sequence};
use replica_feed::{Frame, write_frame};
use std::alloc::Global;
use std::test::Fail;

// A Full of these bytes, behind others.
fn full(alloc: Global, run: u64, number: u64, file: &[u8]) -> Result<Blob, NoMemory> {
    let frame = Frame::Full {
        run,
        number,
        file: Blob::from_slice(alloc, file)?,
    };
    let mut out = Blob::from_slice(alloc, b"<")?;
    match write_frame(alloc, &mut out, &frame) {
        Ok(()) => Ok(out),
        Err(_) => Err(NoMemory),
    }
}

// A Unit of two events, the last of which sets `a`.
fn unit(alloc: Global) -> Result<Blob, NoMemory> {
    let frame = Frame::Unit {
        run: 0,
        from: 0,
        to: 2,
        effects: one_set(alloc, b"a")?,
    };
    let mut out = Blob::new(alloc);
    match write_frame(alloc, &mut out, &frame) {
        Ok(()) => Ok(out),
        Err(_) => Err(NoMemory),
    }
}

// A Unit of an event without effects.
fn quiet_unit(alloc: Global) -> Result<Blob, NoMemory> {
    let frame = Frame::Unit {
        run: 7,
        from: 18_446_744_073_709_551_614,
        to: 18_446_744_073_709_551_615,
        effects: Sequence::new(alloc),
    };
    let mut out = Blob::new(alloc);
    match write_frame(alloc, &mut out, &frame) {
        Ok(()) => Ok(out),
        Err(_) => Err(NoMemory),
    }
}

const FULL: &[u8] = b"<*4\r\n$4\r\nFULL\r\n$2\r\n12\r\n$1\r\n0\r\n$6\r\nRE\r\nIS\r\n";

const UNIT: &[u8] = b"*5\r\n$4\r\nUNIT\r\n$1\r\n0\r\n$1\r\n0\r\n$1\r\n2\r\n$27\r\n\
    *3\r\n$3\r\nSET\r\n$1\r\na\r\n$1\r\n1\r\n\r\n";

const QUIET: &[u8] = b"*5\r\n$4\r\nUNIT\r\n$1\r\n7\r\n$20\r\n18446744073709551614\r\n\
    $20\r\n18446744073709551615\r\n$0\r\n\r\n";

// The text of each form, its file or effects as one word.
#[test]
fn ample(rt: HostRuntime) -> Result<(), Fail> {
    assert!(rt; full(rt.alloc(), 12, 0, b"RE\r\nIS")?.as_slice() == FULL);
    assert!(rt; unit(rt.alloc())?.as_slice() == UNIT);
    assert!(rt; quiet_unit(rt.alloc())?.as_slice() == QUIET);
    Ok(())
}
