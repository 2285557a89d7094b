//! The built-in commands by their names.

ghost use Rattle.std.specs.Prelude.{◌≡◌, ◌+◌, slice_get, take, Some, IfOk, OnOk};
ghost use Rattle.host_core.specs.Builtins.{builtin_named, builtins};
ghost use Rattle.host_core.specs.inner.Names.{Knows, KnowsThese};

use crate::Builtin;
use command_registry::{Owner, Registry};
use core_types::NoMemory;
use std::alloc::Global;

// All built-in commands. They are 52 of different names, so that each is taken.
pub(crate) fn all_names(alloc: Global) -> Result<Registry, NoMemory>
    ensures knows { IfOk result Knows }
{
    let mut names = Registry::new(alloc);
    for (number, cmd) in Builtin::ALL.iter().enumerate() {
        add_builtin(&mut names, number as u16, *cmd)?;
    }
    Ok(names)
}

// Adds the built-in command of this number to those in front of it.
fn add_builtin(names: &mut Registry, number: u16, cmd: Builtin) -> Result<(), NoMemory>
    requires numbered { slice_get builtins number ≡ Some cmd }
    requires before { KnowsThese (take number builtins) names.old }
    ensures after { OnOk result (KnowsThese (take (number + 1) builtins) names.new) }
{
    if let Err(_) = names.add(cmd.spec(), Owner::Builtin(number)) {
        return Err(NoMemory);
    }
    Ok(())
}

// The built-in command of a name, whatever the case of its letters.
pub(crate) fn command_of(names: &Registry, name: &[u8]) -> Option<Builtin>
    requires knows { Knows names.now }
    ensures named { result ≡ builtin_named name.now }
{
    match names.find(name) {
        Some((_, Owner::Builtin(number))) => numbered(number),
        Some((_, Owner::Module(_))) => None,
        None => None,
    }
}

// The built-in command of a number.
fn numbered(number: u16) -> Option<Builtin>
    ensures { result ≡ slice_get builtins number }
{
    at(&Builtin::ALL, number)
}

fn at(commands: &[Builtin], place: u16) -> Option<Builtin>
    ensures { result ≡ slice_get commands.now place }
{
    commands.get(place as usize).copied()
}
