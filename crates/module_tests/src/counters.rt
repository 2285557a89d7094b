//! Sets of modules, and each module in them by its place.

ghost use Rattle.module_laws.specs.Sets.{HasPlace};

use crate::at_work::{asked, end, kept, lived, numbers, run};
use crate::least::Least;
use crate::shelf::Shelf;
use core_types::{Items, Stop};
use key_counter::Counter;
use module_laws::{ModuleSet, One, Two, TwoFault};
use one_key::OneKey;
use std::alloc::Global;
use std::process::Abort;
use std::test::Fail;
use type_ids::TypeName;

// What both modules of a set answer without a command, and what the least module answers to its
// command.
fn both_asked<S: ModuleSet>(
    rt: &impl Abort,
    alloc: Global,
    set: &mut S,
    places: (u16, u16),
) -> Result<([usize; 6], [usize; 6], [i64; 3]), Stop>
    requires counter { HasPlace S.modules places.0 }
    requires least { HasPlace S.modules places.1 }
{
    let (counter, least) = places;
    let mut ctx = Shelf::new(alloc, set);
    let first = asked(alloc, set, counter, &mut ctx, b"counter");
    let second = asked(alloc, set, least, &mut ctx, b"counter");
    let pinged = run(alloc, set, least, &mut ctx, b"LEAST.PING");
    end(rt, set, ctx);
    Ok((first?, second?, pinged?))
}

// What is kept of a number by three effects, and of what the least module saves by one.
fn both_kept<S: ModuleSet>(
    rt: &impl Abort,
    alloc: Global,
    set: &mut S,
    places: (u16, u16),
) -> Result<[([u64; 2], usize, [u64; 2]); 4], Stop>
    requires counter { HasPlace S.modules places.0 }
    requires least { HasPlace S.modules places.1 }
{
    let (counter, least) = places;
    let seven = numbers(alloc, &[7])?;
    let nothing = Items::new(alloc);
    Ok([
        kept(rt, alloc, set, counter, &seven, b"COUNTER.RAISE k")?,
        kept(rt, alloc, set, counter, &seven, b"COUNTER.DROP k")?,
        kept(rt, alloc, set, counter, &seven, b"COUNTER.GET k")?,
        kept(rt, alloc, set, least, &nothing, b"LEAST.PING")?,
    ])
}

// Why two sets are not joined, and how many values the first module of each that is handed back has
// made.
fn refused<A: ModuleSet + Drop, B: ModuleSet + Drop>(a: A, b: B) -> Option<(TwoFault, u64, u64)>
    requires a { HasPlace A.modules 0 }
    requires b { HasPlace B.modules 0 }
{
    match Two::new(a, b) {
        Ok(_) => None,
        Err(back) => Some((back.fault, back.a.made(0), back.b.made(0))),
    }
}

// The counters, as a set that has made this many values.
fn counters(rt: &impl Abort, alloc: Global, made: u8) -> Result<One<OneKey<Counter>>, Stop> {
    let mut set = One::new(OneKey::<Counter>::new());
    let seven = numbers(alloc, &[7])?;
    for _ in 0..made {
        let _ = kept(rt, alloc, &mut set, 0, &seven, b"COUNTER.DROP k")?;
    }
    Ok(set)
}

// Two sets as one, where they can be joined.
fn joined<A: ModuleSet + Drop, B: ModuleSet + Drop>(a: A, b: B) -> Option<Two<A, B>> {
    match Two::new(a, b) {
        Ok(two) => Some(two),
        Err(_) => None,
    }
}

// The two modules as one set, in both orders.
type CounterFirst = Two<One<OneKey<Counter>>, One<Least>>;

type LeastFirst = Two<One<Least>, One<OneKey<Counter>>>;

fn counter_first() -> Option<CounterFirst> {
    joined(One::new(OneKey::<Counter>::new()), One::new(Least::new()))
}

fn least_first() -> Option<LeastFirst> {
    joined(One::new(Least::new()), One::new(OneKey::<Counter>::new()))
}

// Sets, raises, reads, does not set to what is no number, does not raise what is not there, drops,
// reads again, and does not drop what is not there.
#[test]
fn counter_lives_alone_and_in_either_half(rt: HostRuntime) -> Result<(), Fail> {
    let alloc = rt.alloc();
    let lines: [&[u8]; 8] = [
        b"COUNTER.SET a 6",
        b"counter.raise a",
        b"COUNTER.GET a",
        b"COUNTER.SET b six",
        b"COUNTER.RAISE b",
        b"COUNTER.DROP a",
        b"COUNTER.GET a",
        b"counter.DROP a",
    ];
    let answers = [
        [1, 1, 0],
        [1, 1, 0],
        [5, 7, 0],
        [1, 0, 0],
        [1, 0, 0],
        [1, 1, 0],
        [6, 0, 0],
        [1, 0, 0],
    ];
    let told = (answers, (3, 4), (1, 1));
    let mut alone = One::new(OneKey::<Counter>::new());
    let mut left = counter_first().expect(&rt, "they are apart");
    let mut right = least_first().expect(&rt, "they are apart");
    assert!(rt; lived(&rt, alloc, &mut alone, 0, lines)? == told);
    assert!(rt; lived(&rt, alloc, &mut left, 0, lines)? == told);
    assert!(rt; lived(&rt, alloc, &mut right, 1, lines)? == told);
    Ok(())
}

// Each other call of both modules, by place, in both orders.
#[test]
fn ample(rt: HostRuntime) -> Result<(), Fail> {
    let alloc = rt.alloc();
    let kept = [
        ([1, 7], 1, [1, 8]),
        ([1, 7], 1, [0, 0]),
        ([1, 7], 1, [100, 100]),
        ([0, 0], 0, [100, 100]),
    ];
    let pinged = [1, 1, 0];
    let asked = [1, 1, 0, 3, 0, 0];
    let mut left = counter_first().expect(&rt, "they are apart");
    let mut right = least_first().expect(&rt, "they are apart");
    assert!(rt; both_kept(&rt, alloc, &mut left, (0, 1))? == kept);
    assert!(rt; both_kept(&rt, alloc, &mut right, (1, 0))? == kept);
    assert!(rt; both_asked(&rt, alloc, &mut left, (0, 1))? == (asked, asked, pinged));
    assert!(rt; both_asked(&rt, alloc, &mut right, (1, 0))? == (asked, asked, pinged));
    Ok(())
}

// Sets that share the name of a type come back as they were.
#[test]
fn refused_sets_come_back(rt: HostRuntime) -> Result<(), Fail> {
    let alloc = rt.alloc();
    let name = TypeName::new(b"upcounter").expect(&rt, "nine letters");
    assert!(rt;
        refused(counters(&rt, alloc, 1)?, counters(&rt, alloc, 2)?)
            == Some((TwoFault::NameTaken(name), 1, 2))
    );
    Ok(())
}
