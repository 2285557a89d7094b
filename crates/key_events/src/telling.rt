//! What subscribers are told on one channel.

ghost use Rattle.std.specs.Prelude.{◌≡◌, ◌++◌, map, OnOk};
ghost use Rattle.std.specs.List.{flat_map};
ghost use Rattle.key_events.specs.Rolls.{names_at};
ghost use Rattle.key_events.specs.Messages.{to, message, by_patterns, told};

use crate::matches;
use crate::message::{message, pattern_message};
use crate::roll::Roll;
use crate::rolls::Rolls;
use core_types::{Out, Outs};
use sequences::{Blob, NoMemory};
use std::alloc::Global;

// Adds what is told on a channel.
pub(crate) fn tell(
    outs: &mut Outs,
    alloc: Global,
    rolls: &Rolls,
    channel: &[u8],
    payload: &[u8],
) -> Result<(), NoMemory>
    ensures told { OnOk result (outs.new ≡ outs.old ++ told rolls.now channel.now payload.now) }
{
    let listeners = rolls.of(false).listeners(alloc, channel)?;
    tell_listeners(outs, alloc, &listeners, channel, payload)?;
    let patterns = rolls.of(true);
    let matching = patterns.matching(alloc, channel)?;
    tell_matching(outs, alloc, patterns, &matching, channel, payload)
}

// Adds a message to each of these clients.
fn tell_listeners(
    outs: &mut Outs,
    alloc: Global,
    clients: &[u64],
    channel: &[u8],
    payload: &[u8],
) -> Result<(), NoMemory>
    ensures told { OnOk result (outs.new
        ≡ outs.old ++ map (λ c. to c (message channel.now payload.now)) clients.now) }
{
    for client in clients {
        outs.push(Out {
            client: *client,
            reply: message(alloc, channel, payload)?,
        })?;
    }
    Ok(())
}

// Adds what each of these clients is told by its patterns.
fn tell_matching(
    outs: &mut Outs,
    alloc: Global,
    patterns: &Roll,
    clients: &[u64],
    channel: &[u8],
    payload: &[u8],
) -> Result<(), NoMemory>
    ensures told { OnOk result (outs.new ≡ outs.old
        ++ flat_map (λ c. by_patterns channel.now payload.now (c, names_at patterns.now c))
        clients.now) }
{
    for client in clients {
        if let Some(names) = patterns.names(*client) {
            tell_by_patterns(outs, alloc, *client, names.as_slice(), channel, payload)?;
        }
    }
    Ok(())
}

// Adds what a client is told by these patterns.
fn tell_by_patterns(
    outs: &mut Outs,
    alloc: Global,
    client: u64,
    patterns: &[Blob],
    channel: &[u8],
    payload: &[u8],
) -> Result<(), NoMemory>
    ensures told { OnOk result (outs.new
        ≡ outs.old ++ by_patterns channel.now payload.now (client, patterns.now)) }
{
    for pattern in patterns {
        if matches(pattern.as_slice(), channel) {
            outs.push(Out {
                client,
                reply: pattern_message(alloc, pattern.as_slice(), channel, payload)?,
            })?;
        }
    }
    Ok(())
}
