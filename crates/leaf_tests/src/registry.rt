use command_registry::{Owner, RegisterFault, Registry};
use core_types::{CommandSpec, NoMemory};
use std::alloc::Global;
use std::test::Fail;

fn spec(name: &'static [u8], arity: i32) -> CommandSpec {
    CommandSpec {
        name,
        arity,
        writes: false,
        key: 1,
    }
}

// Three commands, which are not added in the order of their names.
fn three(alloc: Global) -> Result<Registry, NoMemory> {
    let mut registry = Registry::new(alloc);
    let get = registry.add(spec(b"GET", 2), Owner::Builtin(7));
    let append = registry.add(spec(b"APPEND", 3), Owner::Builtin(8));
    let store = registry.add(spec(b"hello.store", -2), Owner::Module(2));
    if get.is_err() || append.is_err() || store.is_err() {
        return Err(NoMemory);
    }
    Ok(registry)
}

// The arity and the owner of the command of a name.
fn known(registry: &Registry, name: &[u8]) -> Option<(i32, Owner)> {
    registry.find(name).map(|(spec, owner)| (spec.arity, owner))
}

#[test]
fn ample(rt: HostRuntime) -> Result<(), Fail> {
    let mut registry = three(rt.alloc())?;
    assert_eq!(rt; registry.len(), 3);
    assert!(rt; registry.add(spec(b"get", 2), Owner::Module(1)) == Err(RegisterFault::Taken));
    assert!(rt; registry.add(spec(b"GETS", 2), Owner::Module(1)).is_ok());
    assert_eq!(rt; registry.len(), 4);
    Ok(())
}

#[test]
fn names_are_found_in_any_case(rt: HostRuntime) -> Result<(), Fail> {
    let registry = three(rt.alloc())?;
    let get = Some((2, Owner::Builtin(7)));
    assert_eq!(rt; known(&registry, b"get"), get);
    assert_eq!(rt; known(&registry, b"GeT"), get);
    assert_eq!(rt; known(&registry, b"append"), Some((3, Owner::Builtin(8))));
    assert_eq!(rt;
        known(&registry, b"HELLO.STORE"),
        Some((-2, Owner::Module(2)))
    );
    assert_eq!(rt; known(&registry, b"HELLO[STORE"), None);
    assert_eq!(rt; known(&registry, b"GE"), None);
    assert_eq!(rt; known(&registry, b""), None);
    Ok(())
}
