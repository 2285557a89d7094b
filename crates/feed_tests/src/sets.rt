ghost use Rattle.std.specs.Prelude.{◌<◌, length, IfOk};
ghost use Rattle.std.specs.List.{AllByRecursion};
ghost use Rattle.effect_log.specs.Unit.{IsLoggable};

use core_types::{Effect, Effects, NoMemory, Sequence};
use std::alloc::Global;

// The effect of setting a key to 1.
fn set(alloc: Global, key: &[u8]) -> Result<Effect, NoMemory>
    requires { length key.now < 100 }
    ensures { IfOk result IsLoggable }
{
    Effect::on_key(alloc, b"SET", key, b"1")
}

// It alone.
pub(crate) fn one_set(alloc: Global, key: &[u8]) -> Result<Effects, NoMemory>
    requires { length key.now < 100 }
    ensures { IfOk result (AllByRecursion IsLoggable) }
{
    let mut effects = Sequence::new(alloc);
    effects.push(set(alloc, key)?)?;
    Ok(effects)
}
