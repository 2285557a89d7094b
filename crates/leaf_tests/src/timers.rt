use module_timers::{TimerFault, TimerList, Timers};
use sequences::{Blob, NoMemory};
use std::alloc::Global;
use std::test::Fail;

fn start(
    alloc: Global,
    timers: &mut Timers,
    place: u16,
    deadline: u64,
) -> Result<Result<u64, TimerFault>, NoMemory> {
    let parcel = Blob::from_slice(alloc, b"n")?;
    Ok(timers.start(place, deadline, parcel))
}

// Four timers of two modules. The third has the least deadline, and the first two have one.
fn start_four(alloc: Global, timers: &mut Timers) -> Result<[Option<u64>; 4], NoMemory> {
    let mut numbers = [None; 4];
    let asked = [(1, 100), (2, 100), (1, 50), (2, 2000)];
    for (number, (place, deadline)) in numbers.iter_mut().zip(asked) {
        *number = start(alloc, timers, place, deadline)?.ok();
    }
    Ok(numbers)
}

// The timers that fire at each of these moments, one a moment, of those below a number.
fn fired(alloc: Global, asked: [(u64, u64); 7]) -> Result<[Option<u64>; 7], NoMemory> {
    let mut timers = Timers::new(alloc);
    let started = start_four(alloc, &mut timers);
    let mut fired = [None; 7];
    for (timer, (now, below)) in fired.iter_mut().zip(asked) {
        *timer = timers.due(now, below);
        if let Some(due) = *timer {
            let _ = timers.take(due);
        }
    }
    drop(timers);
    let _ = started?;
    Ok(fired)
}

// Which of these timers are stopped by these modules.
fn stops(alloc: Global, asked: [(u16, u64); 5]) -> Result<[bool; 5], NoMemory> {
    let mut timers = Timers::new(alloc);
    let started = start_four(alloc, &mut timers);
    let mut stopped = [false; 5];
    for (answer, (place, timer)) in stopped.iter_mut().zip(asked) {
        *answer = timers.stop(place, timer);
    }
    drop(timers);
    let _ = started?;
    Ok(stopped)
}

// The number and the place of each timer of a list.
fn places(list: &TimerList) -> [Option<(u64, u16)>; 4] {
    let mut places = [None; 4];
    for (place, (number, timer)) in places.iter_mut().zip(list.as_slice()) {
        *place = Some((*number, timer.place));
    }
    places
}

// The numbers that were given, those that are held after the second was taken, and the next one.
type Held = ([Option<u64>; 4], [Option<(u64, u16)>; 4], u64);

fn hold(alloc: Global, timers: &mut Timers) -> Result<Held, NoMemory> {
    let numbers = start_four(alloc, timers)?;
    let _ = timers.take(2);
    let list = timers.held(alloc)?;
    Ok((numbers, places(&list), timers.next()))
}

fn held(alloc: Global) -> Result<Held, NoMemory> {
    let mut timers = Timers::new(alloc);
    let held = hold(alloc, &mut timers);
    drop(timers);
    held
}

#[test]
fn the_least_deadline_fires_first_and_once(rt: HostRuntime) -> Result<(), Fail> {
    let asked = [
        (49, 9),
        (50, 9),
        (100, 1),
        (100, 2),
        (100, 9),
        (1999, 9),
        (2000, 9),
    ];
    assert_eq!(rt;
        fired(rt.alloc(), asked)?,
        [None, Some(3), None, Some(1), Some(2), None, Some(4)]
    );
    Ok(())
}

#[test]
fn a_module_stops_its_own_timers(rt: HostRuntime) -> Result<(), Fail> {
    assert_eq!(rt;
        stops(rt.alloc(), [(2, 1), (1, 1), (1, 1), (2, 5), (0, 2)])?,
        [false, true, false, false, false]
    );
    Ok(())
}

// Each call that takes memory succeeds where there is enough.
#[test]
fn ample(rt: HostRuntime) -> Result<(), Fail> {
    let numbers = [Some(1), Some(2), Some(3), Some(4)];
    let left = [Some((1, 1)), Some((3, 1)), Some((4, 2)), None];
    assert_eq!(rt; held(rt.alloc())?, (numbers, left, 5));
    Ok(())
}
