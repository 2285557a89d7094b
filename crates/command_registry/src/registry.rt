//! The commands that are known.

ghost use Rattle.std.specs.Prelude.{◌≡◌, IfSome, OnOk, OnErr};
ghost use Rattle.std.specs.FinMap as map;
ghost use Rattle.byte_text.specs.Name.{upper_name};
ghost use Rattle.command_registry.specs.Registry.{AddCause, command_named, name_of, no_commands, with_command};

use crate::search::place_of;
use crate::{Owner, RegisterFault};
use core_types::CommandSpec;
use std::alloc::Global;
use std::marker::Model;

// The most commands that can be known.
const MOST: usize = 1024;

/// The commands that are known, in the order of their names in upper case.
#[derive(Debug, Drop)]
pub struct Registry {
    commands: Vec<(CommandSpec, Owner)>,
}

impl Model for Registry {
    ghost use Rattle.std.specs.FinMap.{from_entries};
    ghost use Rattle.command_registry.specs.Registry.{Commands, coded_commands};
    ghost use Rattle.command_registry.specs.inner.Sorted.{IsSorted, named};

    ghost Value = { Commands };

    ghost coded = { coded_commands };

    ghost view = { λ r. from_entries (named r.commands.items) };

    ghost invariant = { λ r. IsSorted r.commands.items };
}

impl Registry {
    /// No commands. Takes no memory.
    pub fn new(alloc: Global) -> Registry
        ensures empty { result ≡ no_commands }
    {
        Registry {
            commands: Vec::new(alloc),
        }
    }

    /// Makes a command known: `Taken` exactly where one of its name is, whatever the case of its
    /// letters, else `TooMany` exactly where 1,024 are known.
    pub fn add(&mut self, spec: CommandSpec, owner: Owner) -> Result<(), RegisterFault>
        ensures added { OnOk result (self.new ≡ with_command self.old spec owner) }
        ensures cause { AddCause self.old spec.name.now result }
        ensures err { OnErr result (self.new ≡ self.old) }
    {
        let Err(place) = place_of(&self.commands, spec.name) else {
            return Err(RegisterFault::Taken);
        };
        if self.commands.len() >= MOST {
            return Err(RegisterFault::TooMany);
        }
        if let Err(_) = self.commands.insert(place, (spec, owner)) {
            return Err(RegisterFault::Memory);
        }
        Ok(())
    }

    /// The command of a name, whatever the case of its letters, and whose it is. Takes no memory.
    pub fn find(&self, name: &[u8]) -> Option<(CommandSpec, Owner)>
        ensures command { result ≡ command_named self.now name.now }
        ensures named { IfSome result (λ command. name_of command ≡ upper_name name.now) }
    {
        match place_of(&self.commands, name) {
            Ok(place) => Some(self.commands[place]),
            Err(_) => None,
        }
    }

    /// The number of commands that are known, at most 1,024.
    pub fn len(&self) -> u64
        ensures length { result ≡ map.len self.now }
    {
        self.commands.len() as u64
    }
}
