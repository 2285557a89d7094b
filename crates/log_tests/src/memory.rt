//! Small histories of a directory in memory, with what a crash leaves of them, written out by hand.

use core_types::NoMemory;
use disk_model::{Choice, Dir, DirFault, FileName, MemoryDir};
use std::alloc::Global;
use std::test::Fail;

// What a crash at a moment leaves under a name, where it keeps this many changes of names.
#[derive(Clone, Copy)]
struct Row {
    since: u64,
    names: u64,
    // after no unsynced step of the file, after one, and so on
    left: &'static [Option<&'static [u8]>],
}

fn row_holds(dir: &MemoryDir, name: FileName, row: Row) -> Result<bool, NoMemory> {
    for (steps, want) in row.left.iter().enumerate() {
        let steps = steps as u64;
        let image = dir.image(Choice {
            since: row.since,
            names: row.names,
            log: steps,
            log_temp: steps,
            dump: steps,
            dump_temp: steps,
        })?;
        let left = image.content(name) == *want;
        drop(image);
        if !left {
            return Ok(false);
        }
    }
    Ok(true)
}

fn rows_hold(dir: &MemoryDir, name: FileName, rows: &[Row]) -> Result<bool, NoMemory> {
    for row in rows {
        if !row_holds(dir, name, *row)? {
            return Ok(false);
        }
    }
    Ok(true)
}

// A log of "abc" is cut to "a", gets "xy" and is synced, up to the first call that fails.
fn cut_and_append(alloc: Global, fails: &[u64], rows: &[Row]) -> Result<bool, NoMemory> {
    let mut dir = MemoryDir::new(alloc, fails)?.with_file(FileName::Log, b"abc")?;
    if dir.cut(FileName::Log, 1).is_ok() && dir.append(FileName::Log, b"xy").is_ok() {
        let _ = dir.sync(FileName::Log);
    }
    let hold = rows_hold(&dir, FileName::Log, rows);
    drop(dir);
    hold
}

const ABC: Option<&[u8]> = Some(b"abc");

const AB: Option<&[u8]> = Some(b"ab");

const A: Option<&[u8]> = Some(b"a");

const AX: Option<&[u8]> = Some(b"ax");

const AXY: Option<&[u8]> = Some(b"axy");

const CUT_AND_SYNCED: [Row; 4] = [
    Row {
        since: 0,
        names: 0,
        left: &[ABC, ABC],
    },
    Row {
        since: 1,
        names: 0,
        left: &[ABC, AB, A, A],
    },
    Row {
        since: 2,
        names: 0,
        left: &[ABC, AB, A, AX, AXY, AXY],
    },
    Row {
        since: 9,
        names: 9,
        left: &[AXY, AXY],
    },
];

// A failed cut changes nothing, a failed append leaves half, and a failed sync makes nothing safe.
const CUT_FAILED: [Row; 1] = [Row {
    since: 1,
    names: 0,
    left: &[ABC, ABC],
}];

const APPEND_FAILED: [Row; 1] = [Row {
    since: 2,
    names: 0,
    left: &[ABC, AB, A, AX, AX],
}];

const SYNC_FAILED: [Row; 1] = [Row {
    since: 3,
    names: 0,
    left: &[ABC, AB, A, AX, AXY],
}];

#[test]
fn bytes_are_left_in_order(rt: HostRuntime) -> Result<(), Fail> {
    let alloc = rt.alloc();
    assert!(rt; cut_and_append(alloc, &[], &CUT_AND_SYNCED)?);
    assert!(rt; cut_and_append(alloc, &[1], &CUT_FAILED)?);
    assert!(rt; cut_and_append(alloc, &[2], &APPEND_FAILED)?);
    assert!(rt; cut_and_append(alloc, &[3], &SYNC_FAILED)?);
    Ok(())
}

// A new log is made beside an old one of "old", filled and put in its place, up to the first call
// that fails.
fn replace(alloc: Global, fails: &[u64], name: FileName, rows: &[Row]) -> Result<bool, NoMemory> {
    let mut dir = MemoryDir::new(alloc, fails)?.with_file(FileName::Log, b"old")?;
    let _ = put_in_place(&mut dir);
    let hold = rows_hold(&dir, name, rows);
    drop(dir);
    hold
}

fn put_in_place(dir: &mut MemoryDir) -> Result<(), DirFault> {
    dir.create(FileName::LogTemp)?;
    dir.append(FileName::LogTemp, b"ne")?;
    dir.sync(FileName::LogTemp)?;
    dir.rename(FileName::LogTemp, FileName::Log)?;
    dir.sync_names()
}

const OLD: Option<&[u8]> = Some(b"old");

const EMPTY: Option<&[u8]> = Some(b"");

const N: Option<&[u8]> = Some(b"n");

const NE: Option<&[u8]> = Some(b"ne");

const NEW_LOG: [Row; 4] = [
    Row {
        since: 3,
        names: 2,
        left: &[OLD],
    },
    Row {
        since: 4,
        names: 1,
        left: &[OLD],
    },
    Row {
        since: 4,
        names: 2,
        left: &[NE, NE],
    },
    Row {
        since: 5,
        names: 0,
        left: &[NE],
    },
];

const TEMPORARY: [Row; 5] = [
    Row {
        since: 2,
        names: 0,
        left: &[None],
    },
    Row {
        since: 2,
        names: 1,
        left: &[EMPTY, N, NE, NE],
    },
    Row {
        since: 4,
        names: 1,
        left: &[NE],
    },
    Row {
        since: 4,
        names: 2,
        left: &[None],
    },
    Row {
        since: 5,
        names: 0,
        left: &[None],
    },
];

const NAMES_UNSYNCED: [Row; 2] = [
    Row {
        since: 5,
        names: 0,
        left: &[OLD],
    },
    Row {
        since: 5,
        names: 2,
        left: &[NE],
    },
];

const CREATE_FAILED: [Row; 1] = [Row {
    since: 1,
    names: 9,
    left: &[None],
}];

#[test]
fn names_are_left_in_order(rt: HostRuntime) -> Result<(), Fail> {
    let alloc = rt.alloc();
    assert!(rt; replace(alloc, &[], FileName::Log, &NEW_LOG)?);
    assert!(rt; replace(alloc, &[], FileName::LogTemp, &TEMPORARY)?);
    assert!(rt; replace(alloc, &[5], FileName::Log, &NAMES_UNSYNCED)?);
    assert!(rt; replace(alloc, &[1], FileName::LogTemp, &CREATE_FAILED)?);
    Ok(())
}

// Whether a read gives these bytes, or that no file is there.
fn reads(dir: &mut MemoryDir, alloc: Global, name: FileName, want: Option<&[u8]>) -> bool {
    match dir.read_all(alloc, name) {
        Ok(found) => found.as_ref().map(|blob| blob.as_slice()) == want,
        Err(_) => false,
    }
}

// Whether a directory that got a dump in two pieces, and no log, reads so.
fn dump_reads(alloc: Global, want: &[u8]) -> Result<bool, NoMemory> {
    let mut dir = MemoryDir::new(alloc, &[])?.with_file(FileName::Dump, b"REDIS")?;
    let read = dir.append(FileName::Dump, b"0009").is_ok()
        && reads(&mut dir, alloc, FileName::Dump, Some(want))
        && reads(&mut dir, alloc, FileName::Log, None);
    drop(dir);
    Ok(read)
}

// Each call that takes memory answers something else than want of memory, and what it should.
#[test]
fn ample(rt: HostRuntime) -> Result<(), Fail> {
    assert!(rt; dump_reads(rt.alloc(), b"REDIS0009")?);
    Ok(())
}
