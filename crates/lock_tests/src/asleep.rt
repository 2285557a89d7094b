// A thread that waits for the turn sleeps.

ghost use Rattle.std.specs.Prelude.{◌≡◌, ◌+◌, ◌≤◌};
ghost use Rattle.context_lock.specs.Locks.{lock_id};

use crate::stays::stay;
use crate::tape::Tape;
use context_lock::{ContextLock, Pass};
use core_types::Sequence;
use std::alloc::Global;
use std::sync::Wait;
use std::test::Fail;
use std::thread::{Threads, join, sleep};
use std::time::{Clock, CpuClock, Duration};

const HELD: u64 = 400;

// A long stay.
fn hold<R: Wait + Clock>(rt: &R, lock: &ContextLock<Tape>, pass: Pass) -> Pass
    requires lock { pass.lock ≡ lock_id lock.now }
    ensures lock { result.lock ≡ lock_id lock.now }
    ensures parts { result.parts ≡ pass.parts }
{
    let inside = lock.enter(rt, pass);
    sleep(rt, Duration::from_millis(HELD));
    inside.leave()
}

// The processor time of this thread, in milliseconds.
fn spent<R: CpuClock>(rt: &R) -> u64 {
    match rt.thread_cpu_time() {
        Ok(time) => u64::try_from(time.as_millis()).unwrap_or(u64::MAX),
        Err(_) => u64::MAX,
    }
}

// A stay that comes while the other one lasts, and the processor time that it took.
fn wait_for_it<R: Wait + Clock + CpuClock>(
    rt: &R,
    lock: &ContextLock<Tape>,
    pass: Pass,
) -> (Pass, u64)
    requires lock { pass.lock ≡ lock_id lock.now }
    ensures lock { result.0.lock ≡ lock_id lock.now }
    ensures parts { result.0.parts ≡ pass.parts }
{
    sleep(rt, Duration::from_millis(HELD / 4));
    let before = spent(rt);
    let pass = stay(rt, lock, pass, 1);
    (pass, spent(rt).saturating_sub(before))
}

fn both<R: Threads + Wait + Clock + CpuClock + Sync>(
    rt: &R,
    lock: &ContextLock<Tape>,
    pass: Pass,
) -> (Pass, u64)
    requires lock { pass.lock ≡ lock_id lock.now }
    requires parts { 2 ≤ pass.parts }
    ensures lock { result.0.lock ≡ lock_id lock.now }
    ensures parts { result.0.parts ≡ pass.parts }
{
    let (a, b) = lock.split(pass);
    let (a, (b, took)) = join(
        rt,
        move || -> Pass
            requires { a.lock ≡ lock_id lock.now }
            ensures { (result.lock ≡ lock_id lock.entry.now) × (result.parts ≡ a.parts) }
        { hold(rt, lock, a) },
        move || -> (Pass, u64)
            requires { b.lock ≡ lock_id lock.now }
            ensures { (result.0.lock ≡ lock_id lock.entry.now) × (result.0.parts ≡ b.parts) }
        { wait_for_it(rt, lock, b) },
    );
    (lock.join(a, b), took)
}

fn taken_by_waiting<R: Threads + Wait + Clock + CpuClock + Sync>(
    rt: &R,
    alloc: Global,
) -> Option<u64> {
    let tape = Tape {
        events: Sequence::new(alloc),
    };
    let (lock, pass) = ContextLock::new(alloc, tape).ok()?;
    let (pass, took) = both(rt, &lock, pass);
    let _tape = lock.close(pass);
    Some(took)
}

// Some 300 ms of waiting take less than a tenth of that of the processor.
#[test]
fn who_waits_sleeps(rt: HostRuntime) -> Result<(), Fail> {
    assert!(rt; taken_by_waiting(&rt, rt.alloc()).is_some_and(|took| took < 30));
    Ok(())
}
