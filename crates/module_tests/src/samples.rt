//! Lists of numbers and counted words.

ghost use Rattle.std.specs.Prelude.{◌≡◌, true, IfOk};
ghost use Rattle.std.specs.List.{list_all};
ghost use Rattle.module_laws.specs.Sets.{HasPlace};
ghost use Rattle.module_laws.specs.Types.{is_short};

use crate::at_work::{asked, end, kept, lived, numbers};
use crate::shelf::Shelf;
use core_types::{Blob, Items, LoadFault, NoMemory, Stop, Tagged};
use mod_samples::{HelloType, WordCount};
use module_laws::{LoadStop, Module, ModuleSet, One, Two, TwoFault};
use std::alloc::Global;
use std::process::Abort;
use std::test::Fail;
use type_ids::TypeName;

// Where a saved value does not fit: its place, or 100 more than its version, or 1000 where it does.
fn fault_of<M: Module>(
    rt: &impl Abort,
    alloc: Global,
    module: &mut M,
    items: &Items,
    encver: u16,
) -> Result<u64, Stop> {
    match module.load(alloc, items, encver) {
        Ok(value) => {
            assert!(rt; module.freed() < module.made());
            module.free(value);
            Ok(1000)
        }
        Err(LoadStop::Refused(LoadFault::Shape(place))) => Ok(place),
        Err(LoadStop::Refused(LoadFault::Version(version))) => Ok(100 + u64::from(version)),
        Err(LoadStop::Stopped(stop)) => Err(stop),
    }
}

// The same of a list of numbers for hellotype.
fn hello_fault(rt: &impl Abort, alloc: Global, all: &[u64], encver: u16) -> Result<u64, Stop> {
    let items = numbers(alloc, all)?;
    fault_of(rt, alloc, &mut HelloType::new(), &items, encver)
}

// What the module of a set answers without a command.
fn asked_alone<S: ModuleSet>(
    rt: &impl Abort,
    alloc: Global,
    set: &mut S,
) -> Result<[usize; 6], Stop>
    requires { HasPlace S.modules 0 }
{
    let mut ctx = Shelf::new(alloc, set);
    let told = asked(alloc, set, 0, &mut ctx, b"wordcount.set");
    end(rt, set, ctx);
    told
}

// Two words with counts, as they are saved.
fn two_words(alloc: Global) -> Result<Items, NoMemory>
    ensures { IfOk result (λ items. list_all is_short items ≡ true) }
{
    let mut items = Items::new(alloc);
    items.push(Tagged::Number(2))?;
    items.push(Tagged::Bytes(Blob::from_slice(alloc, b"a")?))?;
    items.push(Tagged::Number(3))?;
    items.push(Tagged::Bytes(Blob::from_slice(alloc, b"b")?))?;
    items.push(Tagged::Number(4))?;
    Ok(items)
}

// Each other call of both modules, with ample memory.
#[test]
fn ample(rt: HostRuntime) -> Result<(), Fail> {
    let alloc = rt.alloc();
    let mut hello = One::new(HelloType::new());
    let mut words = One::new(WordCount::new());
    let list = numbers(alloc, &[2, u64::MAX, 6])?;
    let counts = two_words(alloc)?;
    assert!(rt;
        kept(&rt, alloc, &mut hello, 0, &list, b"HELLOTYPE.INSERT k 7")? == ([3, 2], 2, [4, 3])
    );
    assert!(rt;
        kept(&rt, alloc, &mut hello, 0, &list, b"HELLOTYPE.LEN k")? == ([3, 2], 2, [100, 100])
    );
    assert!(rt;
        kept(&rt, alloc, &mut words, 0, &counts, b"WORDCOUNT.SET k c 1")? == ([5, 2], 2, [7, 3])
    );
    assert!(rt;
        kept(&rt, alloc, &mut words, 0, &counts, b"WORDCOUNT.DROP k a")? == ([5, 2], 2, [3, 1])
    );
    assert!(rt;
        kept(&rt, alloc, &mut words, 0, &counts, b"WORDCOUNT.DROP k c")? == ([5, 2], 2, [100, 100])
    );
    assert!(rt; asked_alone(&rt, alloc, &mut hello)? == [1, 1, 0, 3, 0, 0]);
    assert!(rt; asked_alone(&rt, alloc, &mut words)? == [1, 1, 0, 3, 0, 0]);
    Ok(())
}

// A list that grows, its ranges and its length, and what is refused.
#[test]
fn numbers_stand_in_rising_order(rt: HostRuntime) -> Result<(), Fail> {
    let lines: [&[u8]; 8] = [
        b"HELLOTYPE.INSERT k 5",
        b"hellotype.insert k -1",
        b"HELLOTYPE.RANGE k 0 10",
        b"HELLOTYPE.RANGE k 2 10",
        b"HELLOTYPE.LEN k",
        b"HELLOTYPE.INSERT k five",
        b"HELLOTYPE.RANGE k -1 1",
        b"HELLOTYPE.LEN none",
    ];
    let answers = [
        [1, 1, 0],
        [1, 2, 0],
        [2, -1, 5],
        [2, 0, 0],
        [1, 2, 0],
        [4, 43, 0],
        [4, 43, 0],
        [1, 0, 0],
    ];
    let mut set = One::new(HelloType::new());
    assert!(rt; lived(&rt, rt.alloc(), &mut set, 0, lines)? == (answers, (2, 2), (1, 1)));
    Ok(())
}

// A word that is counted to the end, and dropped.
#[test]
fn words_are_counted(rt: HostRuntime) -> Result<(), Fail> {
    let lines: [&[u8]; 8] = [
        b"WORDCOUNT.ADD k w",
        b"wordcount.set k w 9223372036854775807",
        b"WORDCOUNT.ADD k w",
        b"WORDCOUNT.GET k w",
        b"WORDCOUNT.SET k w 0",
        b"WORDCOUNT.DROP k v",
        b"WORDCOUNT.DROP k w",
        b"WORDCOUNT.GET k w",
    ];
    let answers = [
        [1, 1, 0],
        [3, 0, 0],
        [4, 41, 0],
        [1, i64::MAX, 0],
        [4, 43, 0],
        [1, 0, 0],
        [1, 1, 0],
        [1, 0, 0],
    ];
    let mut set = One::new(WordCount::new());
    assert!(rt; lived(&rt, rt.alloc(), &mut set, 0, lines)? == (answers, (3, 4), (1, 1)));
    Ok(())
}

// Saved lists of both versions, and the place of what does not fit.
#[test]
fn lists_are_read_in_both_versions(rt: HostRuntime) -> Result<(), Fail> {
    let alloc = rt.alloc();
    assert_eq!(rt; hello_fault(&rt, alloc, &[1, 5], 2)?, 102);
    assert_eq!(rt; hello_fault(&rt, alloc, &[2, 5, 4], 0)?, 2);
    assert_eq!(rt; hello_fault(&rt, alloc, &[2, 5], 0)?, 2);
    assert_eq!(rt; hello_fault(&rt, alloc, &[1, 5, 6], 0)?, 2);
    assert_eq!(rt;
        hello_fault(&rt, alloc, &[2, 9_223_372_036_854_775_807, 1], 1)?,
        2
    );
    assert_eq!(rt; hello_fault(&rt, alloc, &[2, u64::MAX, 5], 0)?, 1000);
    assert_eq!(rt; hello_fault(&rt, alloc, &[2, u64::MAX, 6], 1)?, 1000);
    Ok(())
}

// Two sets with the same module come back.
#[test]
fn a_set_joins_no_second_hellotype(rt: HostRuntime) -> Result<(), Fail> {
    let name = TypeName::new(b"hellotype")?;
    match Two::new(One::new(HelloType::new()), One::new(HelloType::new())) {
        Ok(_) => assert!(rt; false),
        Err(back) => assert!(rt; back.fault == TwoFault::NameTaken(name)),
    }
    Ok(())
}
