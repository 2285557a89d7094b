//! Makes a change of a log again.

ghost use Rattle.std.specs.Prelude.{◌≡◌, ℕ, Ok, Err, OnOk};
ghost use Rattle.core_types.specs.declared.stop.Stop.{Stop as StopCause};
ghost use Rattle.core_types.specs.declared.stop.Stop.TheVariants as stop;
ghost use Rattle.effect_log.specs.Replay.{Refuses};
ghost use Rattle.effect_log.specs.Unit.{IsReplayable};
ghost use Rattle.effect_log.specs.declared.reason.Reason.{Reason};
ghost use Rattle.effect_log.specs.declared.replayer.ReplayStop.TheVariants as stops;
ghost use Rattle.host_core.specs.Replay.{replay};
ghost use Rattle.host_core.specs.inner.Giving.{is_error};
ghost use Rattle.host_core.specs.inner.Names.{Knows};

use crate::NoValue;
use crate::names::command_of;
use crate::serving::serve_by;
use command_registry::Registry;
use core_types::{Effect, Reply};
use effect_log::{Reason, ReplayStop};
use key_store::KeyStore;
use std::alloc::Global;
use std::hash::RandomState;

// Makes a change again, at moment 0. A refusal leaves the keys; want of memory may leave a part.
pub(crate) fn replay(
    alloc: Global,
    hashing: RandomState,
    names: &Registry,
    keys: &mut KeyStore<NoValue>,
    effect: &Effect,
) -> Result<(), ReplayStop>
    requires replayable { IsReplayable effect.now }
    requires knows { Knows names.now }
    ensures ok { OnOk result (replay keys.old effect.now ≡ Ok keys.new) }
    ensures refused { (place : ℕ) (why : Reason) → result ≡ Err (stops.Refused place why)
        → (place ≡ 0) × Refuses replay keys.old effect.now why }
    ensures same { (place : ℕ) (why : Reason) → result ≡ Err (stops.Refused place why)
        → keys.new ≡ keys.old }
    ensures memory { (why : StopCause) → result ≡ Err (stops.Stopped why) → why ≡ stop.Memory }
{
    let words = &effect.words;
    let Some(cmd) = command_of(names, words.word(0)) else {
        return Err(ReplayStop::Refused(0, Reason::NotAnEffect));
    };
    let spec = cmd.spec();
    if !spec.writes {
        return Err(ReplayStop::Refused(0, Reason::NotAnEffect));
    }
    if !spec.takes(words.len()) {
        return Err(ReplayStop::Refused(0, Reason::EffectRefused));
    }
    let given = serve_by(alloc, hashing, cmd, keys, 0, words)?;
    if is_error(&given.reply) {
        return Err(ReplayStop::Refused(0, Reason::EffectRefused));
    }
    Ok(())
}

fn is_error(reply: &Reply) -> bool
    ensures { result ≡ is_error reply.now }
{
    match reply {
        Reply::Error(_) => true,
        Reply::Simple(_)
        | Reply::Int(_)
        | Reply::Bulk(_)
        | Reply::Null
        | Reply::Array(_)
        | Reply::NullArray => false,
    }
}
