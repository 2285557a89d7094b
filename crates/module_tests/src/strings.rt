//! Handles on a key that has a string.

ghost use Rattle.core_types.specs.Keyspace.{IsString};

use crate::text::{Mark, Text};
use core_types::Kind;
use key_handle::{Handle, HandleFault, Mode};
use module_laws::{SetBack, SetFault};
use std::alloc::Global;
use std::test::Fail;

// A kind as a number, 0 for none.
fn kind_number(kind: Option<Kind>) -> u64 {
    match kind {
        None => 0,
        Some(Kind::Str) => 1,
        Some(_) => 2,
    }
}

// A fault as a number.
fn fault_number(fault: HandleFault) -> u64 {
    match fault {
        HandleFault::ReadOnly => 10,
        HandleFault::Empty => 11,
        HandleFault::Memory => 12,
        HandleFault::NotOurs(Kind::Str) => 21,
        HandleFault::NotOurs(_) => 22,
    }
}

// The same where there may be none, 0 for that.
fn fault_or_none(fault: Option<HandleFault>) -> u64 {
    match fault {
        None => 0,
        Some(fault) => fault_number(fault),
    }
}

// What a key that is opened so answers: its kind, why it shows and lends no value, why it takes
// none, and why it is not deleted.
fn ask(alloc: Global, ctx: &mut Text, key: &[u8], mode: Mode) -> [u64; 5]
    requires { IsString key.now }
{
    let mut handle: Handle<Text, Mark> = Handle::open_key(ctx, key, mode);
    let kind = kind_number(handle.kind());
    let shows = fault_or_none(handle.native().err());
    let lends = fault_or_none(handle.native_mut(alloc).err());
    let takes = match handle.set_native(alloc, Mark) {
        Ok(()) => 0,
        Err(
            SetBack {
                fault: SetFault::ReadOnly,
                value: _,
            },
        ) => 10,
        Err(SetBack { fault: _, value: _ }) => 12,
    };
    let goes = fault_or_none(handle.delete(alloc).err());
    handle.close();
    [kind, shows, lends, takes, goes]
}

// A key with a string: opened for reading it is refused as that, and opened for writing for its
// kind.
#[test]
fn a_string_is_not_lent(rt: HostRuntime) -> Result<(), Fail> {
    let alloc = rt.alloc();
    let mut ctx = Text { moment: 5 };
    assert!(rt; ask(alloc, &mut ctx, b"s", Mode::Read) == [1, 21, 10, 10, 10]);
    assert!(rt; ask(alloc, &mut ctx, b"s", Mode::Write) == [1, 21, 21, 12, 12]);
    Ok(())
}
