//! Hands what a client may take to a sink.

ghost use Rattle.std.specs.Prelude.{ℕ, take, OnOk, OnErr};
ghost use Rattle.std.specs.Io.KnownBytes.{Appends};
ghost use Rattle.core_types.specs.Causes.{HasCause};
ghost use Rattle.durable_host.specs.Host.{KeepsHistory};
ghost use Rattle.server_shell.specs.inner.Handing.{HandsAll, HandsPart};
ghost use Rattle.server_shell.specs.Stream.{IsOneStream};

use disk_model::Dir;
use durable_host::DurableHost;
use io_edges::{Sink, SinkFault};

// How many bytes are handed on at a time, at the most.
const PIECE: usize = 16_384;

/// Hands all that client 1 may take to a sink. On an `Err` the sink got a front of what was taken.
pub(crate) fn hand_out<D: Dir, K: Sink>(
    host: &mut DurableHost<D>,
    sink: &mut K,
) -> Result<(), SinkFault>
    requires keeps { KeepsHistory D.told host.old }
    requires one { IsOneStream host.old.kept }
    ensures all { OnOk result
        (HandsAll D.told host.old host.new (K.told sink.old).got (K.told sink.new).got) }
    ensures part { OnErr result
        (HandsPart D.told host.old host.new (K.told sink.old).got (K.told sink.new).got) }
    ensures cause { HasCause (K.told sink.old).faults (K.told sink.new).faults result }
{
    let mut piece = [0u8; PIECE];
    'handing: loop {
        let count = host.take_out(1, &mut piece);
        if count == 0 {
            return Ok(());
        }
        put_all(sink, &piece[..count])?;
    }
}

// Gives the sink all bytes, in as many pieces as it takes.
pub(crate) fn put_all<K: Sink>(sink: &mut K, bytes: &[u8]) -> Result<(), SinkFault>
    ensures ok { OnOk result (Appends (K.told sink.old).got (K.told sink.new).got bytes.now) }
    ensures err { OnErr result ((count : ℕ)
        × Appends (K.told sink.old).got (K.told sink.new).got (take count bytes.now)) }
    ensures cause { HasCause (K.told sink.old).faults (K.told sink.new).faults result }
{
    let mut done = 0;
    while done < bytes.len() {
        let (_, rest) = bytes.split_at(done);
        done += sink.put(rest)?;
    }
    Ok(())
}
