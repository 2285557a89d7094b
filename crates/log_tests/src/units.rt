ghost use Rattle.std.specs.Prelude.{◌<◌, length, IfOk};
ghost use Rattle.effect_log.specs.Unit.{IsLoggable};

use core_types::{Args, Blob, Effect, NoMemory, Sequence};
use effect_log::unit_text;
use std::alloc::Global;
use std::test::Fail;

// The effect of removing a key.
fn removal(alloc: Global, key: &[u8]) -> Result<Effect, NoMemory>
    requires { length key.now < 100 }
    ensures { IfOk result IsLoggable }
{
    let mut words = Args::new(alloc);
    words.push(b"DEL")?;
    words.push(key)?;
    Ok(Effect { words })
}

// The unit of one effect.
fn unit_of_one(alloc: Global) -> Result<Blob, NoMemory> {
    let mut effects = Sequence::new(alloc);
    effects.push(removal(alloc, b"a\r\n")?)?;
    unit_text(alloc, &effects)
}

// The unit of two effects.
fn unit_of_two(alloc: Global) -> Result<Blob, NoMemory> {
    let mut effects = Sequence::new(alloc);
    effects.push(removal(alloc, b"")?)?;
    effects.push(removal(alloc, b"key")?)?;
    unit_text(alloc, &effects)
}

const ONE: &[u8] = b"*2\r\n$3\r\nDEL\r\n$3\r\na\r\n\r\n";

const TWO: &[u8] = b"*1\r\n$5\r\nMULTI\r\n\
    *2\r\n$3\r\nDEL\r\n$0\r\n\r\n\
    *2\r\n$3\r\nDEL\r\n$3\r\nkey\r\n\
    *1\r\n$4\r\nEXEC\r\n";

// One effect and two.
#[test]
fn ample(rt: HostRuntime) -> Result<(), Fail> {
    assert!(rt; unit_of_one(rt.alloc())?.as_slice() == ONE);
    assert!(rt; unit_of_two(rt.alloc())?.as_slice() == TWO);
    Ok(())
}
