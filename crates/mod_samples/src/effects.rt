//! What a change of a module adds.

ghost use Rattle.std.specs.Prelude.{◌≡◌, OnOk, OnErr};
ghost use Rattle.core_types.specs.Limits.{IsSmallEffect};
ghost use Rattle.module_laws.specs.Told.{with_effect};

use core_types::{Effect, NoMemory};
use module_laws::{Context, Viewed};
use std::alloc::Global;

// Adds the effect of a change.
pub(crate) fn add_effect<V: Viewed, C: Context<V>>(
    alloc: Global,
    ctx: &mut C,
    effect: Effect,
) -> Result<(), NoMemory>
    requires { IsSmallEffect effect }
    ensures ok { OnOk result (C.told ctx.new ≡ with_effect effect (C.told ctx.old)) }
    ensures holds { C.held ctx.new ≡ C.held ctx.old }
    ensures typed { C.typed ctx.new ≡ C.typed ctx.old }
    ensures err { OnErr result (C.told ctx.new ≡ C.told ctx.old) }
{
    ctx.replicate(alloc, effect)
}
