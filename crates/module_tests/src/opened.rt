//! Values of a module in an opened key.

ghost use Rattle.core_types.specs.Keyspace.{IsString};
ghost use Rattle.key_handle.specs.Opened.{opened};

use crate::at_work::{end, give, numbers};
use crate::shelf::Shelf;
use core_types::{NoMemory, Stop, Tagged};
use key_counter::Counter;
use key_handle::{Handle, Mode};
use module_laws::{Context, LoadStop, Module, ModuleSet, One, SetBack};
use one_key::{Held, OneKey};
use std::alloc::Global;
use std::mem;
use std::process::Abort;
use std::test::Fail;

// A value of this number.
fn make(alloc: Global, set: &mut One<OneKey<Counter>>, number: u64) -> Result<Held<Counter>, Stop> {
    let items = numbers(alloc, &[number])?;
    match set.load(alloc, 0, &items, 0) {
        Ok(held) => Ok(held),
        Err(LoadStop::Stopped(stop)) => Err(stop),
        Err(LoadStop::Refused(_)) => Err(Stop::Memory),
    }
}

// The number of a key, and 0 where it has none.
fn number<C: Context<Held<Counter>>>(
    alloc: Global,
    handle: &Handle<C, Held<Counter>>,
) -> Result<u64, NoMemory> {
    let Ok(held) = handle.native() else {
        return Ok(0);
    };
    match OneKey::<Counter>::save(alloc, held)?.get(0) {
        Some(Tagged::Number(number)) => Ok(*number),
        _ => Ok(0),
    }
}

// Changes its value for another one.
fn change<C: Context<Held<Counter>>>(
    alloc: Global,
    handle: &mut Handle<C, Held<Counter>>,
    other: &mut Held<Counter>,
) -> Result<(), NoMemory> {
    match handle.native_mut(alloc) {
        Ok(held) => {
            mem::swap(held, other);
            Ok(())
        }
        Err(_) => Err(NoMemory),
    }
}

// Puts a value in, changes it and removes it: its number before and after the change, and 1 where
// the key was there.
fn live<C: Context<Held<Counter>>>(
    rt: &impl Abort,
    alloc: Global,
    set: &mut One<OneKey<Counter>>,
    handle: &mut Handle<C, Held<Counter>>,
) -> Result<[u64; 3], Stop>
    requires { IsString (opened C.told C.held C.typed handle.old).key }
{
    let five = make(alloc, set, 5)?;
    if let Err(SetBack { fault: _, value }) = handle.set_native(alloc, five) {
        give(rt, set, value);
        return Err(Stop::Memory);
    }
    let before = number(alloc, handle)?;
    let mut seven = make(alloc, set, 7)?;
    let changed = change(alloc, handle, &mut seven);
    give(rt, set, seven);
    changed?;
    let after = number(alloc, handle)?;
    match handle.delete(alloc) {
        Ok(there) => Ok([before, after, u64::from(there)]),
        Err(_) => Err(Stop::Memory),
    }
}

// Each call that changes an opened key, with ample memory. All values come back to their module.
#[test]
fn ample(rt: HostRuntime) -> Result<(), Fail> {
    let alloc = rt.alloc();
    let mut set = One::new(OneKey::<Counter>::new());
    let mut ctx = Shelf::new(alloc, &set);
    let mut handle = Handle::open_key(&mut ctx, b"k", Mode::Write);
    let told = live(&rt, alloc, &mut set, &mut handle);
    handle.close();
    end(&rt, &mut set, ctx);
    assert!(rt; told? == [5, 7, 1]);
    assert!(rt; (set.made(0), set.freed(0)) == (2, 2));
    Ok(())
}
