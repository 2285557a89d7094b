//! The core, the directory and the history of a host, and how an event changes them.

ghost use Rattle.std.specs.Prelude.{◌≡◌, ◌<◌, ◌-◌, ◌^◌, false, None, IfOk, IfErr, OnOk, OnErr};
ghost use Rattle.core_types.specs.Causes.{HasCause, HasCauseFor};
ghost use Rattle.core_types.specs.declared.event.Event.TheVariants as event;
ghost use Rattle.disk_model.specs.Files.{IsSmall, IsThere};
ghost use Rattle.disk_model.specs.Runs.{GoesOnBy, LeavesOnly};
ghost use Rattle.disk_model.specs.Past.{Call, Outcome};
ghost use Rattle.disk_model.specs.Told.{Fails, Goes, disk_told, files_told};
ghost use Rattle.host_core.specs.Replay.{replay};
ghost use Rattle.restart.specs.Restart.{RestartsAsLeft};
ghost use Rattle.durable_host.specs.Crash.{HoldsFrom};
ghost use Rattle.durable_host.specs.Kept.{event_count, with_event};
ghost use Rattle.durable_host.specs.Starts.{Begins, StartStops};
ghost use Rattle.durable_host.specs.Steps.{AppendFails, IsTakable, appends};
ghost use Rattle.durable_host.specs.inner.Making.{GoesWell, GoesWrong, IsLogged, dir_left, faults_left};
ghost use Rattle.durable_host.specs.inner.Running.{IsRunning, kept_of, seen};

use crate::computing::compute;
use crate::fault::{HostFault, StartBack};
use crate::loading::{Loaded, load};
use core_types::{Answer, Event, Events};
use disk_model::{Dir, DirFault, FileName};
use host_core::{Core, Opening};
use std::alloc::Global;
use std::hash::RandomState;

/// The core, the directory and the history of a host.
#[derive(Drop)]
pub(crate) struct Parts<D: Dir> {
    pub(crate) core: Core,
    pub(crate) dir: D,
    // How many events came before the opening.
    pub(crate) first: u64,
    pub(crate) opening: Opening,
    pub(crate) events: Events,
    // How many events every restart has, those before the opening among them.
    pub(crate) safe: u64,
    // In bytes.
    pub(crate) log_length: u64,
    pub(crate) alloc: Global,
}

impl<D: Dir> Parts<D> {
    /// Opens the log of a directory.
    pub(crate) fn open(
        alloc: Global,
        hashing: RandomState,
        mut dir: D,
    ) -> Result<Parts<D>, StartBack<D>>
        ensures begins { IfOk result (λ parts.
            Begins D.told (D.told dir) (seen None false parts)) }
        ensures running { IfOk result (IsRunning D.told) }
        ensures stop { IfErr result (λ back.
            StartStops back.stop (D.told dir) (D.told back.dir)) }
        ensures crash { LeavesOnly (D.told dir) (D.told (dir_left result))
            (RestartsAsLeft replay (disk_told (D.told dir))) }
        ensures cause { (D.told (dir_left result)).faults
            ≡ faults_left result (D.told dir).faults }
    {
        match load(alloc, hashing, &mut dir) {
            Ok(
                Loaded {
                    core,
                    opening,
                    opened,
                },
            ) => Ok(Parts {
                core,
                dir,
                first: 0,
                opening,
                events: Events::new(alloc),
                safe: 0,
                log_length: opened.kept,
                alloc,
            }),
            Err(stop) => Err(StartBack { stop, dir }),
        }
    }

    /// Makes an event of a host that runs.
    pub(crate) fn make(&mut self, event: Event) -> Result<Answer, HostFault>
        requires takable { IsTakable event }
        requires runs { IsRunning D.told self.old }
        ensures well { IfOk result (λ answer.
            GoesWell D.told event answer self.old self.new) }
        ensures wrong { IfErr result (λ fault.
            GoesWrong D.told event fault self.old self.new) }
        ensures crash { LeavesOnly (D.told self.old.dir) (D.told self.new.dir)
            (HoldsFrom (with_event event (kept_of self.old)) self.old.safe) }
        ensures cause { HasCauseFor HostFault.Dir (D.told self.old.dir).faults
            (D.told self.new.dir).faults result }
    {
        if self.first.saturating_add(self.events.len() as u64) == u64::MAX {
            return Err(HostFault::NumbersSpent);
        }
        match event {
            Event::Flush => self.flush(),
            event => self.log(event),
        }
    }

    // Makes all events safe, and frees all that was told.
    fn flush(&mut self) -> Result<Answer, HostFault>
        requires runs { IsRunning D.told self.old }
        requires counts { event_count (kept_of self.old) < 2 ^ 64 - 1 }
        ensures well { IfOk result (λ answer.
            GoesWell D.told event.Flush answer self.old self.new) }
        ensures wrong { IfErr result (λ fault.
            GoesWrong D.told event.Flush fault self.old self.new) }
        ensures crash { LeavesOnly (D.told self.old.dir) (D.told self.new.dir)
            (HoldsFrom (with_event event.Flush (kept_of self.old)) self.old.safe) }
        ensures cause { HasCauseFor HostFault.Dir (D.told self.old.dir).faults
            (D.told self.new.dir).faults result }
    {
        self.events.push(Event::Flush)?;
        if let Err(fault) = sync(&mut self.dir) {
            self.events.pop();
            return Err(HostFault::from(fault));
        }
        self.core.flush();
        self.safe = self.first.saturating_add(self.events.len() as u64);
        Ok(Answer::Done)
    }

    // Computes an event and appends its unit to the log.
    fn log(&mut self, event: Event) -> Result<Answer, HostFault>
        requires logged { IsLogged event }
        requires runs { IsRunning D.told self.old }
        requires counts { event_count (kept_of self.old) < 2 ^ 64 - 1 }
        ensures well { IfOk result (λ answer.
            GoesWell D.told event answer self.old self.new) }
        ensures wrong { IfErr result (λ fault.
            GoesWrong D.told event fault self.old self.new) }
        ensures crash { LeavesOnly (D.told self.old.dir) (D.told self.new.dir)
            (HoldsFrom (with_event event (kept_of self.old)) self.old.safe) }
        ensures cause { HasCauseFor HostFault.Dir (D.told self.old.dir).faults
            (D.told self.new.dir).faults result }
    {
        let computed = compute(self.alloc, &mut self.core, &mut self.events, event)?;
        append(&mut self.dir, computed.unit.as_slice())?;
        self.log_length = self.log_length.saturating_add(computed.unit.len() as u64);
        Ok(computed.answer)
    }

    /// Hands the directory back.
    pub(crate) fn close(self) -> D
        ensures dir { result ≡ self.dir }
    {
        self.dir
    }
}

// Appends bytes to the log, where there are any.
fn append<D: Dir>(dir: &mut D, bytes: &[u8]) -> Result<(), DirFault>
    requires there { IsThere FileName.Log (files_told (D.told dir.old)) }
    ensures done { OnOk result (GoesOnBy (appends bytes.now) (D.told dir.old) (D.told dir.new)) }
    ensures small { OnOk result (IsSmall FileName.Log (files_told (D.told dir.old))
        → IsSmall FileName.Log (files_told (D.told dir.new))) }
    ensures failed { OnErr result (AppendFails bytes.now (D.told dir.old) (D.told dir.new)) }
    ensures cause { HasCause (D.told dir.old).faults (D.told dir.new).faults result }
{
    if bytes.is_empty() {
        return Ok(());
    }
    dir.append(FileName::Log, bytes)
}

// Makes the log safe.
fn sync<D: Dir>(dir: &mut D) -> Result<(), DirFault>
    requires there { IsThere FileName.Log (files_told (D.told dir.old)) }
    ensures done { OnOk result
        (Goes (Call.Sync FileName.Log) Outcome.Done (D.told dir.old) (D.told dir.new)) }
    ensures failed { OnErr result
        (Fails (Call.Sync FileName.Log) (D.told dir.old) (D.told dir.new)) }
    ensures cause { HasCause (D.told dir.old).faults (D.told dir.new).faults result }
{
    dir.sync(FileName::Log)
}
