//! The commands of a transaction, from MULTI on.

ghost use Rattle.std.specs.Prelude.{◌≡◌, IsSome, OnOk, OnErr};
ghost use Rattle.std.specs.Option.{option_map};
ghost use Rattle.client_book.specs.Queue.{with_command, spoiled, ended};

use core_types::{Args, Commands, Duplicate, NoMemory};
use std::alloc::Global;

/// A transaction that is not ended.
#[derive(Debug, Drop)]
pub struct Queued {
    /// The words of its commands, in order.
    pub commands: Commands,
    /// Whether a command was refused, so that EXEC runs none.
    pub spoiled: bool,
}

impl Duplicate for Queued {
    fn duplicate(&self, alloc: Global) -> Result<Queued, NoMemory> {
        Ok(Queued {
            commands: self.commands.copy(alloc)?,
            spoiled: self.spoiled,
        })
    }
}

/// A transaction that was ended, with what its watches saw.
#[derive(Debug, Drop)]
pub struct Queue {
    /// The words of its commands, in order.
    pub commands: Commands,
    /// Whether a command was refused, so that EXEC runs none.
    pub spoiled: bool,
    /// Whether a watched key was changed, so that EXEC runs none.
    pub touched: bool,
}

/// Adds a command to a transaction. An `Err` changes nothing.
pub(crate) fn push_command(queue: &mut Option<Queued>, words: Args) -> Result<(), NoMemory>
    ensures ok { OnOk result (queue.new ≡ option_map (with_command words) queue.old) }
    ensures err { OnErr result (queue.new ≡ queue.old) }
{
    match queue {
        Some(queued) => queued.commands.push(words),
        None => Err(NoMemory),
    }
}

/// Marks a transaction as one that EXEC refuses.
pub(crate) fn spoil(queue: &mut Option<Queued>)
    ensures spoiled { queue.new ≡ option_map spoiled queue.old }
{
    if let Some(queued) = queue {
        queued.spoiled = true;
    }
}

/// Ends a transaction, with the mark of the watches.
pub(crate) fn end(queue: Option<Queued>, touched: bool) -> Queue
    requires begun { IsSome queue }
    ensures ended { option_map (ended touched) queue ≡ Some result }
{
    let Queued { commands, spoiled } = queue.unwrap();
    Queue {
        commands,
        spoiled,
        touched,
    }
}
