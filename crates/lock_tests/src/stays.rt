// Threads that add an event in each of their stays.

ghost use Rattle.std.specs.Prelude.{◌≡◌, ◌+◌, ◌≤◌};
ghost use Rattle.context_lock.specs.Locks.{lock_id};

use crate::tape::{Tape, of};
use context_lock::{ContextLock, Pass};
use core_types::{Event, Sequence};
use std::alloc::Global;
use std::sync::Wait;
use std::test::Fail;
use std::thread::{Threads, join};

// One stay, which adds an event. Where memory ran out it adds none.
pub fn stay<R: Wait>(rt: &R, lock: &ContextLock<Tape>, pass: Pass, client: u64) -> Pass
    requires lock { pass.lock ≡ lock_id lock.now }
    ensures lock { result.lock ≡ lock_id lock.now }
    ensures parts { result.parts ≡ pass.parts }
{
    let mut inside = lock.enter(rt, pass);
    let _added = inside.state.events.push(Event::Join(client));
    inside.leave()
}

fn stays<R: Wait>(rt: &R, lock: &ContextLock<Tape>, pass: Pass, client: u64, count: u64) -> Pass
    requires lock { pass.lock ≡ lock_id lock.now }
    ensures lock { result.lock ≡ lock_id lock.now }
    ensures parts { result.parts ≡ pass.parts }
{
    let mut pass = pass;
    for _ in 0..count {
        pass = stay(rt, lock, pass, client);
    }
    pass
}

// Pair passes of a lock.
#[derive(Drop)]
struct Pair {
    a: Pass,
    b: Pass,
    ghost one_lock: { b.lock ≡ a.lock },
}

// Pair threads, and their passes joined.
fn two_threads<R: Threads + Wait + Sync>(
    rt: &R,
    lock: &ContextLock<Tape>,
    pair: Pair,
    client: u64,
    count: u64,
) -> Pass
    requires lock { pair.a.lock ≡ lock_id lock.now }
    ensures lock { result.lock ≡ lock_id lock.now }
    ensures parts { result.parts ≡ pair.a.parts + pair.b.parts }
{
    let Pair { a, b } = pair;
    let (a, b) = join(
        rt,
        move || -> Pass
            requires { a.lock ≡ lock_id lock.now }
            ensures { (result.lock ≡ lock_id lock.entry.now) × (result.parts ≡ a.parts) }
        { stays(rt, lock, a, client, count) },
        move || -> Pass
            requires { b.lock ≡ lock_id lock.now }
            ensures { (result.lock ≡ lock_id lock.entry.now) × (result.parts ≡ b.parts) }
        { stays(rt, lock, b, client ^ 1, count) },
    );
    lock.join(a, b)
}

// Four threads.
fn four_threads<R: Threads + Wait + Sync>(
    rt: &R,
    lock: &ContextLock<Tape>,
    x: Pair,
    y: Pair,
    client: u64,
    count: u64,
) -> Pass
    requires locks { (x.a.lock ≡ lock_id lock.now) × (y.a.lock ≡ lock_id lock.now) }
    ensures lock { result.lock ≡ lock_id lock.now }
    ensures parts { result.parts ≡ (x.a.parts + x.b.parts) + (y.a.parts + y.b.parts) }
{
    let (a, b) = join(
        rt,
        move || -> Pass
            requires { x.a.lock ≡ lock_id lock.now }
            ensures { (result.lock ≡ lock_id lock.entry.now)
                × (result.parts ≡ x.a.parts + x.b.parts) }
        { two_threads(rt, lock, x, client, count) },
        move || -> Pass
            requires { y.a.lock ≡ lock_id lock.now }
            ensures { (result.lock ≡ lock_id lock.entry.now)
                × (result.parts ≡ y.a.parts + y.b.parts) }
        { two_threads(rt, lock, y, client ^ 2, count) },
    );
    lock.join(a, b)
}

// Pair passes of one part each, and the rest.
fn cut_pair(lock: &ContextLock<Tape>, pass: Pass) -> (Pass, Pair)
    requires lock { pass.lock ≡ lock_id lock.now }
    requires parts { 3 ≤ pass.parts }
    ensures locks { (result.0.lock ≡ lock_id lock.now) × (result.1.a.lock ≡ lock_id lock.now) }
    ensures parts { result.0.parts + 2 ≡ pass.parts }
    ensures ones { (result.1.a.parts ≡ 1) × (result.1.b.parts ≡ 1) }
{
    let (pass, a) = lock.split(pass);
    let (pass, b) = lock.split(pass);
    (pass, Pair { a, b })
}

// Eight threads.
fn eight_threads<R: Threads + Wait + Sync>(
    rt: &R,
    lock: &ContextLock<Tape>,
    pass: Pass,
    count: u64,
) -> Pass
    requires lock { pass.lock ≡ lock_id lock.now }
    requires parts { 9 ≤ pass.parts }
    ensures lock { result.lock ≡ lock_id lock.now }
    ensures parts { result.parts ≡ pass.parts }
{
    let (pass, w) = cut_pair(lock, pass);
    let (pass, x) = cut_pair(lock, pass);
    let (pass, y) = cut_pair(lock, pass);
    let (pass, z) = cut_pair(lock, pass);
    let (a, b) = join(
        rt,
        move || -> Pass
            requires { (w.a.lock ≡ lock_id lock.now) × (x.a.lock ≡ lock_id lock.now) }
            ensures { (result.lock ≡ lock_id lock.entry.now)
                × (result.parts ≡ (w.a.parts + w.b.parts)
                + (x.a.parts + x.b.parts)) }
        { four_threads(rt, lock, w, x, 0, count) },
        move || -> Pass
            requires { (y.a.lock ≡ lock_id lock.now) × (z.a.lock ≡ lock_id lock.now) }
            ensures { (result.lock ≡ lock_id lock.entry.now)
                × (result.parts ≡ (y.a.parts + y.b.parts)
                + (z.a.parts + z.b.parts)) }
        { four_threads(rt, lock, y, z, 4, count) },
    );
    let ones = lock.join(a, b);
    lock.join(pass, ones)
}

// How many clients have `count` events after as many stays of each of eight threads, and where
// the history ends.
fn counted<R: Threads + Wait + Sync>(rt: &R, alloc: Global, count: u64) -> Option<(u64, u64)> {
    let tape = Tape {
        events: Sequence::new(alloc),
    };
    let (lock, pass) = ContextLock::new(alloc, tape).ok()?;
    let pass = eight_threads(rt, &lock, pass, count);
    let tape = lock.close(pass);
    let full = (0..8u64)
        .filter(|client| of(&tape, *client) == count)
        .count();
    Some((full as u64, tape.events.len() as u64))
}

// Each of eight threads adds an event in each of its stays, and none is lost or made twice.
#[test]
fn each_stay_adds_an_event(rt: HostRuntime) -> Result<(), Fail> {
    assert!(rt; counted(&rt, rt.alloc(), 100_000) == Some((8, 800_000)));
    Ok(())
}
