//! Reads the log of a directory into the keys of a core.

ghost use Rattle.std.specs.Prelude.{◌≡◌, IfOk};
ghost use Rattle.core_types.specs.Keys.{key_count, no_keys};
ghost use Rattle.durable_host.specs.Holding.{holding};

use core_types::{Effect, NoMemory};
use effect_log::{ReplayStop, Replayer};
use host_core::Core;
use std::alloc::Global;
use std::hash::RandomState;
use std::marker::Model;

/// Keys that a log is replayed into, and then a core that has them.
#[derive(Drop)]
pub struct Loader {
    core: Core,
}

impl Model for Loader {
    ghost use Rattle.std.specs.Prelude.{◌≡◌};
    ghost use Rattle.core_types.specs.Keys.{Keys};
    ghost use Rattle.host_core.specs.Core.{keys_code};
    ghost use Rattle.durable_host.specs.Holding.{holding};

    ghost Value = { Keys };

    ghost coded = { keys_code };

    ghost view = { λ l. l.core.keys };

    ghost invariant = { λ l. l.core ≡ holding l.core.keys };
}

impl Loader {
    /// No keys yet. New hashes hash their names with `hashing`.
    pub fn new(alloc: Global, hashing: RandomState) -> Result<Loader, NoMemory>
        ensures empty { IfOk result (λ loader. loader ≡ no_keys) }
    {
        Ok(Loader {
            core: Core::new(alloc, hashing)?,
        })
    }

    /// The number of keys.
    pub fn keys(&self) -> u64
        ensures count { result ≡ key_count self.now }
    {
        self.core.keys().len() as u64
    }

    /// A core that has the keys, without clients, at moment 0. Takes no memory.
    pub fn into_core(self) -> Core
        ensures core { result ≡ holding self }
    {
        let Loader { core } = self;
        core
    }

    /// Drops the keys.
    pub fn close(self) {}
}

impl Replayer for Loader {
    ghost use Rattle.std.specs.Prelude.{false};
    ghost use Rattle.host_core.specs.Replay.{replay};

    ghost keys = { λ keys. keys };

    ghost meaning = { replay };

    ghost is_spent = { λ _. false };

    fn replay(&mut self, _alloc: Global, effect: &Effect) -> Result<(), ReplayStop> {
        self.core.replay(effect)
    }
}
