//! A host whose history outlives a crash.

ghost use Rattle.std.specs.Prelude.{◌≡◌, ◌++◌, length, take, drop, min, true, Some, None, IfOk, IfErr, IfSome};
ghost use Rattle.core_types.specs.Causes.{HasCauseFor};
ghost use Rattle.disk_model.specs.Files.{Files};
ghost use Rattle.disk_model.specs.Runs.{LeavesOnly, MayLeave};
ghost use Rattle.disk_model.specs.Told.{disk_told, files_told};
ghost use Rattle.client_book.specs.Client.{passes};
ghost use Rattle.client_book.specs.Register.{changes, free_of, listed, state_of as client_state, told_of};
ghost use Rattle.host_core.specs.Core.{state_of};
ghost use Rattle.host_core.specs.Replay.{replay};
ghost use Rattle.restart.specs.Restart.{Restarts, RestartsAsLeft};
ghost use Rattle.durable_host.specs.Crash.{HoldsFrom};
ghost use Rattle.durable_host.specs.Host.{HandsOut, KeepsHistory};
ghost use Rattle.durable_host.specs.Kept.{with_event};
ghost use Rattle.durable_host.specs.Starts.{Begins, StartStops, dir_of, faults_after};
ghost use Rattle.durable_host.specs.Steps.{Happens, IsTakable, Stops};

use crate::fault::{HostFault, StartBack};
use crate::parts::Parts;
use core_types::{Answer, Cause, ClientState, Event, Events};
use disk_model::Dir;
use host_core::{Core, Opening};
use std::alloc::Global;
use std::hash::RandomState;
use std::marker::Model;

/// A machine over the log of a directory: its core, the history that it keeps, and how many of the
/// events every restart has.
#[derive(Drop)]
pub struct DurableHost<D: Dir> {
    parts: Parts<D>,
    stopped: Option<Cause>,
    ending: bool,
}

impl<D: Dir> Model for DurableHost<D> {
    ghost use Rattle.durable_host.specs.Host.{Host, host_code};

    ghost Value = { Host D };

    ghost coded = { host_code D.code };

    ghost use Rattle.durable_host.specs.inner.Running.{IsSound};

    ghost view = { λ h. record {
      kept = record { first = h.parts.first; opening = h.parts.opening; events = h.parts.events };
      safe = h.parts.safe;
      held = h.parts.core;
      dir = h.parts.dir;
      log_length = h.parts.log_length;
      stopped = h.stopped;
      ending = h.ending;
    } };

    ghost invariant = { λ h. IsSound D.told h.stopped h.parts };
}

impl<D: Dir> DurableHost<D> {
    /// Opens the log of a directory, or begins one, and hands out a host that has the keys that the
    /// directory stood for, without clients, at moment 0. New hashes hash their names with
    /// `hashing`. On an `Err` the directory is handed back; whatever was done to it, it stands for
    /// what it stood for.
    pub fn start(
        alloc: Global,
        hashing: RandomState,
        dir: D,
    ) -> Result<DurableHost<D>, StartBack<D>>
        ensures begins { IfOk result (λ host. Begins D.told (D.told dir) host) }
        ensures kept { IfOk result (λ host. KeepsHistory D.told host) }
        ensures stop { IfErr result (λ back.
            StartStops back.stop (D.told dir) (D.told back.dir)) }
        ensures crash { LeavesOnly (D.told dir) (D.told (dir_of result))
            (RestartsAsLeft replay (disk_told (D.told dir))) }
        ensures cause { (D.told (dir_of result)).faults
            ≡ faults_after result (D.told dir).faults }
    {
        let parts = Parts::open(alloc, hashing, dir)?;
        Ok(DurableHost {
            parts,
            stopped: None,
            ending: false,
        })
    }

    /// Makes one event: computes it, and appends the unit of its changes to the log, or for a Flush
    /// syncs the log and lets clients take what they were told.
    ///
    /// A fault stops the host. After `Dir`, which is answered exactly where the directory failed,
    /// the event is kept where it has changes, since some of them may be in the log. After
    /// `Memory`, and after `NumbersSpent`, which comes where 2^64 - 1 events happened, nothing is
    /// kept of it. Every later step answers `Stopped` with the first cause, and changes nothing.
    pub fn step(&mut self, event: Event) -> Result<Answer, HostFault>
        requires takable { IsTakable event }
        ensures happens { IfOk result (λ answer.
            Happens D.told event answer self.old self.new) }
        ensures stops { IfErr result (λ fault. Stops D.told fault event self.old self.new) }
        ensures kept { KeepsHistory D.told self.new }
        ensures crash { LeavesOnly (D.told self.old.dir) (D.told self.new.dir)
            (HoldsFrom (with_event event self.old.kept) self.old.safe) }
        ensures cause { HasCauseFor HostFault.Dir (D.told self.old.dir).faults
            (D.told self.new.dir).faults result }
    {
        if let Some(cause) = self.stopped {
            return Err(HostFault::Stopped(cause));
        }
        match self.parts.make(event) {
            Ok(answer) => Ok(answer),
            Err(fault) => {
                self.stopped = Some(fault.cause());
                Err(fault)
            }
        }
    }

    /// Moves the longest front of the bytes that a client may take, and that fits, and says how
    /// long it is. It is 0 for a client that is not there. Takes no memory.
    pub fn take_out(&mut self, client: u64, into: &mut [u8]) -> usize
        ensures count { result
            ≡ min (length into.old) (free_of (listed self.old.held.register client)) }
        ensures moved { HandsOut self.old client (take result into.new) }
        ensures rest { into.new ≡ take result into.new ++ drop result into.old }
        ensures kept { KeepsHistory D.told self.new }
        ensures left { self.new ≡ record self.old {
          held = record self.old.held {
            register = changes (passes result) client self.old.held.register;
          };
        } }
    {
        self.parts.core.take_out(client, into)
    }

    /// Whether a client is there, and whether it is closing.
    pub fn client(&self, client: u64) -> ClientState
        ensures state { result ≡ client_state (listed self.now.held.register client) }
    {
        self.parts.core.book().state(client)
    }

    /// The number of bytes that a client may take now.
    pub fn waiting(&self, client: u64) -> u64
        ensures bytes { result ≡ free_of (listed self.now.held.register client) }
    {
        self.parts.core.book().flushed(client)
    }

    /// The number of bytes that a client was told and has not taken.
    pub fn untaken(&self, client: u64) -> u64
        ensures bytes { result ≡ length (told_of (listed self.now.held.register client)) }
    {
        self.parts.core.book().untaken(client)
    }

    /// The number of events before the opening. It is 0.
    pub fn first(&self) -> u64
        ensures first { result ≡ self.now.kept.first }
    {
        self.parts.first
    }

    /// The state that the kept events began from.
    pub fn opening(&self) -> &Opening
        ensures opening { result.now ≡ self.now.kept.opening }
    {
        &self.parts.opening
    }

    /// The events that are kept, in order. What a host that runs is follows from them.
    pub fn events(&self) -> &Events
        ensures events { result.now ≡ self.now.kept.events }
        ensures kept { KeepsHistory D.told self.now }
    {
        &self.parts.events
    }

    /// The core. After a fault its keys may be ahead of the kept events, or changed in part.
    pub fn core(&self) -> &Core
        ensures core { result.now ≡ self.now.held }
    {
        &self.parts.core
    }

    /// Why the host has stopped, where it has.
    pub fn stopped(&self) -> Option<Cause>
        ensures stopped { result ≡ self.now.stopped }
    {
        self.stopped
    }

    /// The length of the log in bytes; after a fault, that before it.
    pub fn log_length(&self) -> u64
        ensures length { result ≡ self.now.log_length }
    {
        self.parts.log_length
    }

    /// The host is to end: whoever works for it finds that.
    pub fn set_ending(&mut self)
        ensures ending { self.new ≡ record self.old { ending = true } }
    {
        self.ending = true;
    }

    /// Whether the host is to end.
    pub fn ending(&self) -> bool
        ensures ending { result ≡ self.now.ending }
    {
        self.ending
    }

    /// Ends the host and hands its directory back. Where it had not stopped, the directory restarts
    /// to its keys. Takes no memory.
    pub fn close(self) -> D
        ensures dir { result ≡ self.dir }
        ensures kept { KeepsHistory D.told self }
        ensures keys { self.stopped ≡ None → IfSome (files_told (D.told result))
            (λ files. Restarts replay files self.held.keys) }
    {
        let DurableHost {
            parts,
            stopped: _,
            ending: _,
        } = self;
        parts.close()
    }
}
