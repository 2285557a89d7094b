use core_types::{BadRequest, Cause, ClientState, Event, NoMemory};
use disk_model::{Choice, MemoryDir};
use durable_host::{DurableHost, HostFault, Loader};
use resp_codec::{Got, Reader};
use restart::look;
use std::alloc::Global;
use std::hash::RandomState;
use std::test::Fail;

type Host = DurableHost<MemoryDir>;

// Opening a folder without files makes four calls.
const OPENING: u64 = 4;

fn join(host: &mut Host) -> Result<(), HostFault> {
    host.step(Event::Join(1))?;
    Ok(())
}

fn tick(host: &mut Host) -> Result<(), HostFault> {
    host.step(Event::Tick(7))?;
    Ok(())
}

fn malformed(host: &mut Host) -> Result<(), HostFault> {
    host.step(Event::Malformed(1, BadRequest::BulkLength))?;
    Ok(())
}

fn flush(host: &mut Host) -> Result<(), HostFault> {
    host.step(Event::Flush)?;
    Ok(())
}

fn gone(host: &mut Host) -> Result<(), HostFault> {
    host.step(Event::Gone(1))?;
    Ok(())
}

// A line that client 1 sends, as the reader of a stream makes a request of it.
fn send(alloc: Global, host: &mut Host, line: &[u8]) -> Result<(), HostFault> {
    let mut reader = Reader::new(alloc);
    reader.feed(line)?;
    match reader.next()? {
        Got::Request(words) => {
            host.step(Event::Arrive(1, words))?;
            Ok(())
        }
        Got::More | Got::Bad(_, _) => Err(HostFault::Memory),
    }
}

// A host over a folder without files, of whose calls this one fails.
fn started(alloc: Global, hashing: RandomState, fails: u64) -> Result<Host, HostFault> {
    match DurableHost::start(alloc, hashing, MemoryDir::new(alloc, &[fails])?) {
        Ok(host) => Ok(host),
        Err(_) => Err(HostFault::Dir),
    }
}

// How many keys a folder restarts to, or nothing where it does not restart.
fn keys_of(
    alloc: Global,
    hashing: RandomState,
    dir: &mut MemoryDir,
) -> Result<Option<u64>, NoMemory> {
    let mut loader = Loader::new(alloc, hashing)?;
    let looked = look(alloc, dir, &mut loader).is_ok();
    let keys = loader.keys();
    loader.close();
    Ok(if looked { Some(keys) } else { None })
}

// The number of bytes that client 1 takes, with room for 512.
fn take(host: &mut Host) -> usize {
    let mut bytes = [0; 512];
    host.take_out(1, &mut bytes)
}

// What 64 requests give that one Flush frees.
#[derive(Debug, Drop, PartialEq)]
struct Freed {
    before: usize,
    flushed: bool,
    waiting: u64,
    after: usize,
    stopped: Option<Cause>,
    log: u64,
    events: usize,
}

// Client 1 joins, and sends `SET a 1` 64 times.
fn sets(alloc: Global, host: &mut Host) -> Result<(), HostFault> {
    join(host)?;
    for _ in 0..64 {
        send(alloc, host, b"*3\r\n$3\r\nSET\r\n$1\r\na\r\n$1\r\n1\r\n")?;
    }
    Ok(())
}

// One Flush follows.
fn sets_and_flush(alloc: Global, host: &mut Host) -> Result<Freed, HostFault> {
    sets(alloc, host)?;
    let before = take(host);
    let flushed = flush(host).is_ok();
    Ok(Freed {
        before,
        flushed,
        waiting: host.waiting(1),
        after: take(host),
        stopped: host.stopped(),
        log: host.log_length(),
        events: host.events().len(),
    })
}

// The same where this call fails.
fn freed_though(alloc: Global, hashing: RandomState, fails: u64) -> Result<Freed, HostFault> {
    let mut host = started(alloc, hashing, fails)?;
    sets_and_flush(alloc, &mut host)
}

// 64 appends and one sync: the sync is the call that fails, or the call behind it would.
#[test]
fn one_flush_syncs_once_and_frees_all(rt: HostRuntime) -> Result<(), Fail> {
    let sync = OPENING + 64 + 1;
    let rows = [
        (sync + 1, true, 320, None, 66),
        (sync, false, 0, Some(Cause::Dir), 65),
    ];
    for (fails, flushed, after, stopped, events) in rows {
        let freed = Freed {
            before: 0,
            flushed,
            waiting: after as u64,
            after,
            stopped,
            log: 64 * 27,
            events,
        };
        let got = freed_though(rt.alloc(), RandomState::new(&rt)?, fails);
        assert_eq!(rt; got, Ok(freed));
    }
    Ok(())
}

// Ten requests, each of which makes a key.
const LINES: [&[u8]; 10] = [
    b"SET a 1\n",
    b"SET b 1\n",
    b"RPUSH c 1\n",
    b"HSET d f 1\n",
    b"SET e 1\n",
    b"MSET f 1\n",
    b"SET g 1\n",
    b"SET h 1\n",
    b"SET i 1\n",
    b"SET j 1\n",
];

// The moment after the last call: ten appends, and a sync behind every second of them.
const LAST: u64 = OPENING + 15;

// How many requests a Flush made safe, until a call failed. There is a Flush behind every second.
fn serve(alloc: Global, host: &mut Host) -> Result<u64, HostFault> {
    let mut safe = 0;
    join(host)?;
    for (place, line) in LINES.iter().enumerate() {
        if send(alloc, host, line).is_err() {
            return Ok(safe);
        }
        if place % 2 == 1 {
            if flush(host).is_err() {
                return Ok(safe);
            }
            safe = place as u64 + 1;
        }
    }
    Ok(safe)
}

// The keys of the image at a moment in which this many unsynced bytes of the log are kept.
fn image_keys(
    alloc: Global,
    hashing: RandomState,
    dir: &MemoryDir,
    since: u64,
    log: u64,
) -> Result<Option<u64>, NoMemory> {
    let mut image = dir.image(Choice {
        since,
        names: 0,
        log,
        log_temp: 0,
        dump: 0,
        dump_temp: 0,
    })?;
    keys_of(alloc, hashing, &mut image)
}

// How many unsynced bytes of the log are kept in the first image at a moment that does not restart,
// or restarts to fewer keys than these. Between two syncs the log grows by 64 bytes at most.
fn wrong_log(
    alloc: Global,
    hashing: RandomState,
    dir: &MemoryDir,
    since: u64,
    least: u64,
) -> Result<Option<u64>, NoMemory> {
    for log in 0..=64 {
        match image_keys(alloc, hashing, dir, since, log)? {
            Some(keys) if keys >= least => {}
            _ => return Ok(Some(log)),
        }
    }
    Ok(None)
}

// Where this call fails, how many requests a Flush made safe, and what is left.
fn left(alloc: Global, hashing: RandomState, fails: u64) -> Result<(u64, MemoryDir), HostFault> {
    let mut host = started(alloc, hashing, fails)?;
    let safe = serve(alloc, &mut host)?;
    Ok((safe, host.close()))
}

// Where this call fails, how many requests a Flush made safe, and the first image from a moment on
// that does not restart as it has to, by its moment and how much of the log it has: to some keys,
// and at the last moment to those of each request that is safe.
fn wrong_image(
    alloc: Global,
    hashing: RandomState,
    fails: u64,
    from: u64,
) -> Result<(u64, Option<(u64, u64)>), HostFault> {
    let (safe, dir) = left(alloc, hashing, fails)?;
    for since in from..=LAST {
        let least = if since == LAST { safe } else { 0 };
        if let Some(log) = wrong_log(alloc, hashing, &dir, since, least)? {
            return Ok((safe, Some((since, log))));
        }
    }
    Ok((safe, None))
}

// Each call after the opening fails once, and once none does. Before the call that fails a run is
// as that in which none does, so each moment is looked at in that one, and of any other the last.
#[test]
fn every_image_of_a_run_restarts(rt: HostRuntime) -> Result<(), Fail> {
    let hashing = RandomState::new(&rt)?;
    for done in 0..15 {
        let got = wrong_image(rt.alloc(), hashing, OPENING + done + 1, LAST);
        assert_eq!(rt; got, Ok((done / 3 * 2, None)));
    }
    let got = wrong_image(rt.alloc(), hashing, LAST + 1, OPENING);
    assert_eq!(rt; got, Ok((10, None)));
    Ok(())
}

// What is seen of a host after a few events.
#[derive(Debug, Drop, PartialEq)]
struct Seen {
    client: ClientState,
    untaken: u64,
    first: u64,
    opened: u64,
    keys: u64,
    ending: bool,
}

fn see(host: &Host) -> Seen {
    Seen {
        client: host.client(1),
        untaken: host.untaken(1),
        first: host.first(),
        opened: host.opening().keys(),
        keys: host.core().keys().len() as u64,
        ending: host.ending(),
    }
}

fn few_events(alloc: Global, host: &mut Host) -> Result<(), HostFault> {
    join(host)?;
    send(alloc, host, b"SET a 1\n")?;
    tick(host)?;
    malformed(host)?;
    flush(host)
}

// And how many keys the folder restarts to.
fn look_at(alloc: Global, hashing: RandomState) -> Result<(Seen, Option<u64>), HostFault> {
    let mut host = started(alloc, hashing, 0)?;
    few_events(alloc, &mut host)?;
    host.set_ending();
    let seen = see(&host);
    gone(&mut host)?;
    let mut dir = host.close();
    Ok((seen, keys_of(alloc, hashing, &mut dir)?))
}

#[test]
fn ample(rt: HostRuntime) -> Result<(), Fail> {
    // `+OK` and the error of a bad length, of 42 bytes with the ends of lines.
    let seen = Seen {
        client: ClientState::Closing,
        untaken: 47,
        first: 0,
        opened: 0,
        keys: 1,
        ending: true,
    };
    assert_eq!(rt;
        look_at(rt.alloc(), RandomState::new(&rt)?),
        Ok((seen, Some(1)))
    );
    Ok(())
}
