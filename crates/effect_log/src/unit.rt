//! One event's effects as one unit of the log.

ghost use Rattle.std.specs.Prelude.{◌≡◌, ◌++◌, IfOk, OnOk};
ghost use Rattle.std.specs.List.{AllByRecursion, flat_map};
ghost use Rattle.effect_log.specs.Unit.{unit, effect_text, IsLoggable};

use core_types::{Blob, Effects, NoMemory};
use resp_codec::write_request;
use std::alloc::Global;

// The requests that open and close a unit of several effects.
const MULTI: &[u8] = b"*1\r\n$5\r\nMULTI\r\n";

const EXEC: &[u8] = b"*1\r\n$4\r\nEXEC\r\n";

/// The text of the effects of one event, which the log replays all together or not at all.
/// An `Err` says that memory ran out.
pub fn unit_text(alloc: Global, effects: &Effects) -> Result<Blob, NoMemory>
    requires { AllByRecursion IsLoggable effects.now }
    ensures unit { IfOk result (λ text. text ≡ unit effects.now) }
{
    let mut text = Blob::new(alloc);
    if effects.len() < 2 {
        append_effects(&mut text, effects)?;
        return Ok(text);
    }
    text.push_slice(MULTI)?;
    append_effects(&mut text, effects)?;
    text.push_slice(EXEC)?;
    Ok(text)
}

// The effects' requests, one after the other.
fn append_effects(text: &mut Blob, effects: &Effects) -> Result<(), NoMemory>
    requires { AllByRecursion IsLoggable effects.now }
    ensures ok { OnOk result (text.new ≡ text.old ++ flat_map effect_text effects.now) }
{
    for effect in effects.as_slice() {
        write_request(text, &effect.words)?;
    }
    Ok(())
}
