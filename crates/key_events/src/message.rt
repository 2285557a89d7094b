//! The text of a message, and the names of channels.

ghost use Rattle.std.specs.Prelude.{◌≡◌, ◌+◌, ◌++◌, ◌∷◌, [], IfOk, OnOk};
ghost use Rattle.core_types.specs.declared.part.Part.TheVariants as part;
ghost use Rattle.key_events.specs.Messages.{message, pattern_message, keyspace_channel};
ghost use Rattle.key_events.specs.Messages.{keyevent_channel};

use core_types::{Replies, Reply};
use sequences::{Blob, NoMemory};
use std::alloc::Global;

// What one who has the channel is told.
pub(crate) fn message(alloc: Global, channel: &[u8], payload: &[u8]) -> Result<Reply, NoMemory>
    ensures message { IfOk result (λ reply. reply ≡ message channel.now payload.now) }
{
    let mut parts = Replies::new(alloc);
    push(&mut parts, alloc, b"message")?;
    push(&mut parts, alloc, channel)?;
    push(&mut parts, alloc, payload)?;
    Ok(Reply::Array(parts))
}

// What one is told who has a pattern that matches the channel.
pub(crate) fn pattern_message(
    alloc: Global,
    pattern: &[u8],
    channel: &[u8],
    payload: &[u8],
) -> Result<Reply, NoMemory>
    ensures message { IfOk result
        (λ reply. reply ≡ pattern_message pattern.now channel.now payload.now) }
{
    let mut parts = Replies::new(alloc);
    push(&mut parts, alloc, b"pmessage")?;
    push(&mut parts, alloc, pattern)?;
    push(&mut parts, alloc, channel)?;
    push(&mut parts, alloc, payload)?;
    Ok(Reply::Array(parts))
}

// Adds a copy of a byte string.
fn push(parts: &mut Replies, alloc: Global, text: &[u8]) -> Result<(), NoMemory>
    ensures count { OnOk result (parts.new.count ≡ parts.old.count + 1) }
    ensures parts { OnOk result (parts.new.parts ≡ parts.old.parts ++ part.Bulk text.now ∷ []) }
{
    parts.push(Reply::Bulk(Blob::from_slice(alloc, text)?))
}

// The channel of all events of a key.
pub(crate) fn keyspace_channel(alloc: Global, key: &[u8]) -> Result<Blob, NoMemory>
    ensures channel { IfOk result (λ channel. channel ≡ keyspace_channel key.now) }
{
    let mut channel = Blob::from_slice(alloc, b"__keyspace@0__:")?;
    channel.push_slice(key)?;
    Ok(channel)
}

// The channel of an event of all keys.
pub(crate) fn keyevent_channel(alloc: Global, event: &[u8]) -> Result<Blob, NoMemory>
    ensures channel { IfOk result (λ channel. channel ≡ keyevent_channel event.now) }
{
    let mut channel = Blob::from_slice(alloc, b"__keyevent@0__:")?;
    channel.push_slice(event)?;
    Ok(channel)
}
