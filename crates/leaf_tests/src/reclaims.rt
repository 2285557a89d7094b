use reclaimer::Reclaimer;
use std::alloc::Global;
use std::test::Fail;

// A value that has to be spent.
struct Held {
    number: u64,
}

fn spend(held: Held) -> u64 {
    let Held { number } = held;
    number
}

// Frees up to this number of values, and says how many it freed, and the last of them.
fn reclaim(queue: &mut Reclaimer<u64>, most: usize) -> (u64, Option<u64>) {
    let before = queue.len();
    let mut last = None;
    for _ in 0..most {
        if let Some(value) = queue.pop() {
            last = Some(value);
        }
    }
    (before.saturating_sub(queue.len()), last)
}

// What four calls free of three values.
fn reclaimed(alloc: Global, most: [usize; 4]) -> [(u64, Option<u64>); 4] {
    let mut queue = Reclaimer::new(alloc);
    for value in [5, 6, 7] {
        let _ = queue.push(value);
    }
    let mut freed = [(0, None); 4];
    for (answer, most) in freed.iter_mut().zip(most) {
        *answer = reclaim(&mut queue, most);
    }
    drop(queue);
    freed
}

// A value that has to be spent goes through the queue, and the queue is closed.
fn through(alloc: Global, number: u64) -> Option<u64> {
    let mut queue = Reclaimer::new(alloc);
    if let Err(held) = queue.push(Held { number }) {
        let _ = spend(held);
    }
    let popped = queue.pop();
    queue.close();
    match popped {
        Some(held) => Some(spend(held)),
        None => None,
    }
}

#[test]
fn the_oldest_is_freed_first(rt: HostRuntime) -> Result<(), Fail> {
    assert_eq!(rt;
        reclaimed(rt.alloc(), [1, 0, 10, 10]),
        [(1, Some(5)), (0, None), (2, Some(7)), (0, None)]
    );
    Ok(())
}

#[test]
fn a_value_that_must_be_spent_goes_through(rt: HostRuntime) -> Result<(), Fail> {
    assert_eq!(rt; through(rt.alloc(), 9), Some(9));
    Ok(())
}
