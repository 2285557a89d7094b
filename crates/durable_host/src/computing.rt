//! What is made of an event before the directory is asked for anything.

ghost use Rattle.std.specs.Prelude.{◌≡◌, ◌++◌, [], ◌∷◌, IfOk, IfErr, OnOk, OnErr};
ghost use Rattle.core_types.specs.Keyspace.{IsKeyspace};
ghost use Rattle.host_core.specs.Core.{IsServable, state_of};
ghost use Rattle.host_core.specs.Laws.{AllJoined};
ghost use Rattle.durable_host.specs.Steps.{ClientsOrNext, KeepsOutboxes};
ghost use Rattle.durable_host.specs.declared.fault.HostFault.TheVariants as faults;
ghost use Rattle.durable_host.specs.inner.Making.{Computes};
ghost use Rattle.durable_host.specs.inner.Running.{AreFronts, any_native};

use crate::fault::HostFault;
use core_types::{Answer, Blob, Event, Events};
use effect_log::unit_text;
use host_core::Core;
use std::alloc::Global;

/// What an event writes to the log, and how it is answered.
#[derive(Drop)]
pub(crate) struct Computed {
    pub(crate) unit: Blob,
    pub(crate) answer: Answer,
}

/// Makes the step of an event in the core, makes the text that it writes, and adds the event to the
/// history. It stops for want of memory alone, and then the history is as it was.
pub(crate) fn compute(
    alloc: Global,
    core: &mut Core,
    events: &mut Events,
    event: Event,
) -> Result<Computed, HostFault>
    requires servable { IsServable event }
    requires limits { IsKeyspace any_native core.old.keys }
    requires joined { AllJoined (state_of core.old) }
    requires fronts { AreFronts core.old.register }
    ensures computed { IfOk result (λ computed. Computes event core.old computed core.new) }
    ensures clients { ClientsOrNext event core.old core.new }
    ensures places { KeepsOutboxes core.old.register core.new.register }
    ensures memory { IfErr result (λ fault. fault ≡ faults.Memory) }
    ensures events { OnOk result (events.new ≡ events.old ++ event ∷ []) }
    ensures err { OnErr result (events.new ≡ events.old) }
{
    let stepped = core.step(&event)?;
    let unit = unit_text(alloc, &stepped.effects)?;
    events.push(event)?;
    Ok(Computed {
        unit,
        answer: stepped.answer,
    })
}
