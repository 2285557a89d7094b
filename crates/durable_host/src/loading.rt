//! Opens the log of a directory, and makes a core of what it stands for.

ghost use Rattle.std.specs.Prelude.{IfOk, IfErr};
ghost use Rattle.core_types.specs.Causes.{HasCauseFor};
ghost use Rattle.disk_model.specs.Runs.{LeavesOnly};
ghost use Rattle.disk_model.specs.Told.{disk_told};
ghost use Rattle.host_core.specs.Replay.{replay};
ghost use Rattle.restart.specs.Restart.{RestartsAsLeft};
ghost use Rattle.restart.specs.declared.opening.OpenStop.TheVariants as stops;
ghost use Rattle.durable_host.specs.Starts.{StartStops};
ghost use Rattle.durable_host.specs.inner.Making.{Loads};

use crate::loader::Loader;
use disk_model::Dir;
use host_core::{Core, Opening};
use restart::{OpenStop, Opened, open_log};
use std::alloc::Global;
use std::hash::RandomState;

/// A core with the keys of a directory whose log is open, and a picture of it.
#[derive(Drop)]
pub(crate) struct Loaded {
    pub(crate) core: Core,
    pub(crate) opening: Opening,
    pub(crate) opened: Opened,
}

/// Opens the log, and reads it into a core.
pub(crate) fn load<D: Dir>(
    alloc: Global,
    hashing: RandomState,
    dir: &mut D,
) -> Result<Loaded, OpenStop>
    ensures loaded { IfOk result (λ loaded. Loads (D.told dir.old) (D.told dir.new) loaded) }
    ensures stop { IfErr result (λ stop. StartStops stop (D.told dir.old) (D.told dir.new)) }
    ensures crash { LeavesOnly (D.told dir.old) (D.told dir.new)
        (RestartsAsLeft replay (disk_told (D.told dir.old))) }
    ensures cause { HasCauseFor stops.Dir (D.told dir.old).faults (D.told dir.new).faults result }
{
    let mut loader = Loader::new(alloc, hashing)?;
    let opened = open_log(alloc, dir, &mut loader)?;
    let core = loader.into_core();
    let opening = core.picture()?;
    Ok(Loaded {
        core,
        opening,
        opened,
    })
}
