// Two threads in turns: who does not have its turn sleeps on its bell, and who made its event rings
// the other's.

ghost use Rattle.std.specs.Prelude.{◌≡◌, ◌+◌, ◌≤◌};
ghost use Rattle.context_lock.specs.Locks.{lock_id};

use crate::tape::{Tape, of};
use context_lock::{ContextLock, Pass};
use core_types::{Event, Sequence};
use std::alloc::Global;
use std::sync::Wait;
use std::test::Fail;
use std::thread::{Threads, join};

// One event of this client, 0 or 1, once the number of events says that it is its turn.
fn turn<R: Wait>(rt: &R, lock: &ContextLock<Tape>, pass: Pass, client: u64) -> Pass
    requires lock { pass.lock ≡ lock_id lock.now }
    ensures lock { result.lock ≡ lock_id lock.now }
    ensures parts { result.parts ≡ pass.parts }
{
    let mut pass = pass;
    for _ in rt.forever() {
        let key = lock.client_bell(client).prepare_wait();
        let mut inside = lock.enter(rt, pass);
        if inside.state.events.len() as u64 % 2 == client {
            let _added = inside.state.events.push(Event::Join(client));
            return inside.leave_and_ring(&[client ^ 1], false);
        }
        pass = inside.leave();
        key.wait(rt);
    }
    unreachable!()
}

fn turns<R: Wait>(rt: &R, lock: &ContextLock<Tape>, pass: Pass, client: u64, count: u64) -> Pass
    requires lock { pass.lock ≡ lock_id lock.now }
    ensures lock { result.lock ≡ lock_id lock.now }
    ensures parts { result.parts ≡ pass.parts }
{
    let mut pass = pass;
    for _ in 0..count {
        pass = turn(rt, lock, pass, client);
    }
    pass
}

fn in_turns<R: Threads + Wait + Sync>(
    rt: &R,
    lock: &ContextLock<Tape>,
    pass: Pass,
    count: u64,
) -> Pass
    requires lock { pass.lock ≡ lock_id lock.now }
    requires parts { 2 ≤ pass.parts }
    ensures lock { result.lock ≡ lock_id lock.now }
    ensures parts { result.parts ≡ pass.parts }
{
    let (a, b) = lock.split(pass);
    let (a, b) = join(
        rt,
        move || -> Pass
            requires { a.lock ≡ lock_id lock.now }
            ensures { (result.lock ≡ lock_id lock.entry.now) × (result.parts ≡ a.parts) }
        { turns(rt, lock, a, 0, count) },
        move || -> Pass
            requires { b.lock ≡ lock_id lock.now }
            ensures { (result.lock ≡ lock_id lock.entry.now) × (result.parts ≡ b.parts) }
        { turns(rt, lock, b, 1, count) },
    );
    lock.join(a, b)
}

fn events_of_two<R: Threads + Wait + Sync>(
    rt: &R,
    alloc: Global,
    count: u64,
) -> Option<(u64, u64)> {
    let tape = Tape {
        events: Sequence::new(alloc),
    };
    let (lock, pass) = ContextLock::new(alloc, tape).ok()?;
    let pass = in_turns(rt, &lock, pass, count);
    let tape = lock.close(pass);
    Some((of(&tape, 0), of(&tape, 1)))
}

// Each ring wakes the one whose turn it is: a lost one would leave both asleep.
#[test]
fn each_ring_wakes_the_other(rt: HostRuntime) -> Result<(), Fail> {
    assert!(rt; events_of_two(&rt, rt.alloc(), 20_000) == Some((20_000, 20_000)));
    Ok(())
}
