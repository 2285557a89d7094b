use key_waiters::Waiters;
use sequences::NoMemory;
use std::alloc::Global;
use std::test::Fail;

// Three tickets wait, the first and the last on one key.
fn three(alloc: Global) -> Result<Waiters, NoMemory> {
    let mut waiters = Waiters::new(alloc);
    waiters.wait(1, b"k")?;
    waiters.wait(2, b"l")?;
    waiters.wait(5, b"k")?;
    Ok(waiters)
}

// The tickets that are asked on a key, each above the one before it; each leaves when it was asked,
// where it is the one that is to leave.
fn ask(waiters: &mut Waiters, key: &[u8], leaves: u64) -> [Option<u64>; 3] {
    let mut asked = [None; 3];
    let mut above = 0;
    for ticket in &mut asked {
        *ticket = waiters.first(key, above);
        if let Some(first) = *ticket {
            above = first;
            if first == leaves {
                waiters.leave(first);
            }
        }
    }
    asked
}

// Whether each of these tickets waits, and on this key.
fn waits(waiters: &Waiters, tickets: [u64; 4], key: &[u8]) -> [Option<bool>; 4] {
    let mut answers = [None; 4];
    for (answer, ticket) in answers.iter_mut().zip(tickets) {
        if let Some(on) = waiters.key_of(ticket) {
            *answer = Some(on.as_slice() == key);
        }
    }
    answers
}

// What is asked on both keys, where the first ticket leaves when it is asked, and who waits then.
type Asked = ([Option<u64>; 3], [Option<u64>; 3], [Option<bool>; 4]);

fn asked(alloc: Global) -> Result<Asked, NoMemory> {
    let mut waiters = three(alloc)?;
    let first = ask(&mut waiters, b"k", 1);
    let second = ask(&mut waiters, b"k", 0);
    let left = waits(&waiters, [1, 2, 5, 6], b"k");
    drop(waiters);
    Ok((first, second, left))
}

// It takes memory once for each ticket, and there is enough.
#[test]
fn the_oldest_is_asked_first(rt: HostRuntime) -> Result<(), Fail> {
    let (asked, again, left) = asked(rt.alloc())?;
    assert_eq!(rt; asked, [Some(1), Some(5), None]);
    assert_eq!(rt; again, [Some(5), None, None]);
    assert_eq!(rt; left, [None, Some(false), Some(true), None]);
    Ok(())
}
