//! Serves the requests of client 1.

ghost use Rattle.std.specs.Prelude.{◌≡◌, ℕ, [], ◌∷◌, None, OnOk, OnErr};
ghost use Rattle.core_types.specs.declared.event.Event.TheVariants as event;
ghost use Rattle.resp_codec.specs.Requests.{End};
ghost use Rattle.resp_codec.specs.Spelling.{IsRequest};
ghost use Rattle.durable_host.specs.Host.{KeepsHistory};
ghost use Rattle.durable_host.specs.Steps.{IsTakable};
ghost use Rattle.server_shell.specs.Faults.{IsHostStop, IsServeStop, StandsAt, counted_by, dir_faults, end_of, faults_of};
ghost use Rattle.server_shell.specs.Making.{MakesAll, MakesSome, taken_by};
ghost use Rattle.server_shell.specs.Requests.{AtMoment, Serves, ServesPart};
ghost use Rattle.server_shell.specs.Runs.{end_events, request_events};
ghost use Rattle.server_shell.specs.Stream.{IsCaughtUp, IsOneStream, StaysOn};
ghost use Rattle.server_shell.specs.inner.Flushing.{Flushes};
ghost use Rattle.server_shell.specs.inner.Stopping.{StopsOver};

use crate::handing::hand_out;
use crate::status::Status;
use core_types::{Args, BadRequest, Event};
use disk_model::Dir;
use durable_host::DurableHost;
use io_edges::{Clock, Sink};

// Serves one request: the clock is read, the keys that are due go, the request arrives, and what
// was changed and told by then is flushed and handed to the sink.
pub(crate) fn serve_request<D: Dir, K: Sink, C: Clock>(
    host: &mut DurableHost<D>,
    words: Args,
    clock: &mut C,
    sink: &mut K,
) -> Result<(), Status>
    requires request { IsRequest words }
    requires caught_up { IsCaughtUp D.told host.old }
    ensures served { OnOk result (AtMoment (C.told clock.old) (C.told clock.new) (λ moment.
        Serves D.told (request_events moment words) host.old host.new
        (K.told sink.old).got (K.told sink.new).got)) }
    ensures part { OnErr result (AtMoment (C.told clock.old) (C.told clock.new) (λ moment.
        ServesPart D.told [] (request_events moment words) host.old host.new
        (K.told sink.old).got (K.told sink.new).got)) }
    ensures counts { faults_of (D.told host.new.dir) 0 (K.told sink.new)
        ≡ counted_by (end_of result) (faults_of (D.told host.old.dir) 0 (K.told sink.old)) }
    ensures why { OnErr result (IsServeStop (end_of result)) }
    ensures stands { StandsAt (end_of result) host.new }
{
    let moment = clock.now();
    serve_event(host, Event::Tick(moment))?;
    serve_event(host, Event::Arrive(1, words))?;
    flush(host)?;
    hand_out(host, sink)?;
    Ok(())
}

// Tells client 1 that its stream goes on with what is no request, and hands that to the sink.
pub(crate) fn refuse_stream<D: Dir, K: Sink>(
    host: &mut DurableHost<D>,
    kind: BadRequest,
    sink: &mut K,
) -> Result<(), Status>
    requires caught_up { IsCaughtUp D.told host.old }
    ensures served { (offset : ℕ) → OnOk result (Serves D.told (end_events (End.Bad kind offset))
        host.old host.new (K.told sink.old).got (K.told sink.new).got) }
    ensures part { (offset : ℕ) → OnErr result
        (ServesPart D.told [] (end_events (End.Bad kind offset)) host.old host.new
        (K.told sink.old).got (K.told sink.new).got) }
    ensures counts { faults_of (D.told host.new.dir) 0 (K.told sink.new)
        ≡ counted_by (end_of result) (faults_of (D.told host.old.dir) 0 (K.told sink.old)) }
    ensures why { OnErr result (IsServeStop (end_of result)) }
    ensures stands { StandsAt (end_of result) host.new }
{
    serve_event(host, Event::Malformed(1, kind))?;
    flush(host)?;
    hand_out(host, sink)?;
    Ok(())
}

// Makes one event.
pub(crate) fn serve_event<D: Dir>(host: &mut DurableHost<D>, event: Event) -> Result<(), Status>
    requires takable { IsTakable event }
    requires runs { host.old.stopped ≡ None }
    requires keeps { KeepsHistory D.told host.old }
    ensures made { OnOk result (MakesAll D.told (event ∷ []) host.old host.new) }
    ensures taken { OnOk result (StaysOn event → taken_by host.new ≡ taken_by host.old) }
    ensures broken { OnErr result (MakesSome D.told (event ∷ []) host.old host.new) }
    ensures counts { (D.told host.new.dir).faults
        ≡ dir_faults (end_of result) (D.told host.old.dir).faults }
    ensures why { OnErr result (StopsOver event (end_of result)) }
    ensures stands { StandsAt (end_of result) host.new }
{
    host.step(event)?;
    Ok(())
}

// Makes all events safe; client 1 may take all that it was told.
fn flush<D: Dir>(host: &mut DurableHost<D>) -> Result<(), Status>
    requires runs { host.old.stopped ≡ None }
    requires keeps { KeepsHistory D.told host.old }
    requires one { IsOneStream host.old.kept }
    ensures flushed { OnOk result (Flushes D.told host.old host.new) }
    ensures broken { OnErr result (MakesSome D.told (event.Flush ∷ []) host.old host.new) }
    ensures counts { (D.told host.new.dir).faults
        ≡ dir_faults (end_of result) (D.told host.old.dir).faults }
    ensures why { OnErr result (IsHostStop (end_of result)) }
    ensures stands { StandsAt (end_of result) host.new }
{
    host.step(Event::Flush)?;
    Ok(())
}
