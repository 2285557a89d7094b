use core_types::{Effect, NoMemory};
use disk_model::{Choice, Dir, FileName, MemoryDir};
use effect_log::{Reason, ReplayStop, Replayer};
use restart::{OpenStop, Opened, look, open_log};
use std::alloc::Global;
use std::test::Fail;

// Counts the effects, and keeps no keys.
#[derive(Drop)]
struct Counter {
    effects: u64,
}

impl Replayer for Counter {
    ghost use Rattle.std.specs.Prelude.{Ok, false};
    ghost use Rattle.core_types.specs.Keys.{no_keys};

    ghost keys = { λ replayer. no_keys };

    ghost meaning = { λ keys effect. Ok keys };

    ghost is_spent = { λ replayer. false };

    fn replay(&mut self, _: Global, _: &Effect) -> Result<(), ReplayStop> {
        self.effects = self.effects.saturating_add(1);
        Ok(())
    }
}

// A SET of 27 bytes.
const WHOLE: &[u8] = b"*3\r\n$3\r\nSET\r\n$1\r\nb\r\n$1\r\n2\r\n";

// The same, and two bytes of a torn unit.
const TORN: &[u8] = b"*3\r\n$3\r\nSET\r\n$1\r\nb\r\n$1\r\n2\r\n*2";

// A directory whose log got these bytes, and nothing was synced.
fn written(alloc: Global, log: Option<&[u8]>) -> Result<MemoryDir, NoMemory> {
    let mut dir = MemoryDir::new(alloc, &[])?;
    if let Some(bytes) = log {
        let made = dir.create(FileName::Log).is_ok();
        if made {
            let _ = dir.append(FileName::Log, bytes);
        }
    }
    Ok(dir)
}

// Whether opening such a log answers this.
fn opens(alloc: Global, log: &[u8], wanted: Result<Opened, OpenStop>) -> Result<bool, NoMemory> {
    let mut dir = written(alloc, Some(log))?;
    Ok(open_log(alloc, &mut dir, &mut Counter { effects: 0 }) == wanted)
}

// Whether a look at such a log answers this.
fn looks(alloc: Global, log: &[u8], wanted: Result<Opened, OpenStop>) -> Result<bool, NoMemory> {
    let mut dir = written(alloc, Some(log))?;
    Ok(look(alloc, &mut dir, &mut Counter { effects: 0 }) == wanted)
}

const FOUND: Result<Opened, OpenStop> = Ok(Opened {
    length: 29,
    kept: 27,
    imported: false,
});

const REFUSED: Result<Opened, OpenStop> = Err(OpenStop::LogRefused {
    file: FileName::Log,
    offset: 0,
    reason: Reason::NotMultibulk,
});

// A torn log is opened, and a look finds the same. A fault of form is refused with its place.
#[test]
fn ample(rt: HostRuntime) -> Result<(), Fail> {
    assert!(rt; opens(rt.alloc(), TORN, FOUND)?);
    assert!(rt; looks(rt.alloc(), TORN, FOUND)?);
    assert!(rt; opens(rt.alloc(), b"RED", REFUSED)?);
    Ok(())
}

// A log that is written and then opened: its effects, and the numbers of the calls from which on
// its bytes, and then its name, are safe. With the second the log is open.
#[derive(Drop)]
struct Row {
    log: Option<&'static [u8]>,
    effects: u64,
    bytes: u64,
    name: u64,
}

// How many effects an image has to restart to: those of the log where its bytes and its name were
// kept, or were safe.
fn wanted(row: &Row, choice: Choice) -> u64 {
    let written = choice.since >= 2 && choice.log >= 27;
    let bytes = written || choice.since >= row.bytes;
    let name = choice.names > 0 || choice.since >= row.name;
    if bytes && name { row.effects } else { 0 }
}

// How many effects a directory restarts to, and whether its log had no torn unit, if it is opened.
fn restarted(alloc: Global, dir: &mut MemoryDir) -> Option<(u64, bool)> {
    let mut counter = Counter { effects: 0 };
    match open_log(alloc, dir, &mut counter) {
        Ok(opened) => Some((counter.effects, opened.length == opened.kept)),
        Err(_) => None,
    }
}

// Whether that is as an image has to restart: it has no torn unit once the log is open.
fn is_due(start: Option<(u64, bool)>, row: &Row, choice: Choice) -> bool {
    match start {
        Some((effects, whole)) => {
            effects == wanted(row, choice) && (whole || choice.since < row.name)
        }
        None => false,
    }
}

// Whether an image, opened again, restarts as it has to.
fn restarts(alloc: Global, dir: &MemoryDir, row: &Row, choice: Choice) -> Result<bool, NoMemory> {
    let mut image = dir.image(choice)?;
    let start = restarted(alloc, &mut image);
    Ok(is_due(start, row, choice))
}

// Whether each image of a moment restarts as it has to. A crash keeps the change of names or not,
// and up to 31 bytes that were added to the log or cut off; no other file is there.
fn restarts_at(alloc: Global, dir: &MemoryDir, row: &Row, since: u64) -> Result<bool, NoMemory> {
    for kept in 0..64 {
        let choice = Choice {
            since,
            names: kept % 2,
            log: kept / 2,
            log_temp: 0,
            dump: 0,
            dump_temp: 0,
        };
        if !restarts(alloc, dir, row, choice)? {
            return Ok(false);
        }
    }
    Ok(true)
}

// The first moment of a directory, its end included, of which an image does not restart as it has
// to.
fn wrong_moment(alloc: Global, dir: &MemoryDir, row: &Row) -> Result<Option<u64>, NoMemory> {
    for since in 0..8 {
        if !restarts_at(alloc, dir, row, since)? {
            return Ok(Some(since));
        }
    }
    Ok(None)
}

// Whether each image of a log that is written and opened restarts as it has to.
fn always_restarts(alloc: Global, row: &Row) -> Result<bool, NoMemory> {
    let mut dir = written(alloc, row.log)?;
    let _ = restarted(alloc, &mut dir);
    Ok(wrong_moment(alloc, &dir, row)?.is_none())
}

const ROWS: [Row; 4] = [
    Row {
        log: Some(TORN),
        effects: 1,
        bytes: 4,
        name: 7,
    },
    Row {
        log: Some(WHOLE),
        effects: 1,
        bytes: 4,
        name: 5,
    },
    Row {
        log: Some(b""),
        effects: 0,
        bytes: 4,
        name: 5,
    },
    Row {
        log: None,
        effects: 0,
        bytes: 0,
        name: 4,
    },
];

// A torn log, a whole one, an empty one and none are written and opened. Whatever a crash leaves at
// any moment of it restarts as it has to.
#[test]
fn every_image_of_an_opening_restarts(rt: HostRuntime) -> Result<(), Fail> {
    for row in &ROWS {
        assert!(rt; always_restarts(rt.alloc(), row)?);
    }
    Ok(())
}
