// A bell that is rung between the key and the wait is not lost.

use crate::tape::Tape;
use context_lock::ContextLock;
use core_types::Sequence;
use std::alloc::Global;
use std::sync::Wait;
use std::test::Fail;

// Takes a key, rings, and waits, which returns at once where no ring is lost.
fn rounds<R: Wait>(rt: &R, lock: &ContextLock<Tape>, count: u64) {
    for round in 0..count {
        let key = lock.client_bell(round).prepare_wait();
        lock.client_bell(round % 1024).notify_all();
        key.wait(rt);
        let key = lock.worker_bell().prepare_wait();
        lock.worker_bell().notify_one();
        key.wait(rt);
    }
}

fn rung<R: Wait>(rt: &R, alloc: Global, count: u64) -> bool {
    let tape = Tape {
        events: Sequence::new(alloc),
    };
    let Ok((lock, pass)) = ContextLock::new(alloc, tape) else {
        return false;
    };
    rounds(rt, &lock, count);
    let _tape = lock.close(pass);
    true
}

#[test]
fn no_ring_is_lost(rt: HostRuntime) -> Result<(), Fail> {
    assert!(rt; rung(&rt, rt.alloc(), 1_000_000));
    Ok(())
}
