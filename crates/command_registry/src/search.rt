//! A search by name among commands in the order of their names.

ghost use Rattle.std.specs.Prelude.{◌≡◌, length};
ghost use Rattle.std.specs.Cmp.Lexicographic.{slice_cmp};
ghost use Rattle.std.specs.List.Sorted.{IsBinarySearchResult, IsSearchInRange};
ghost use Rattle.std.specs.Ordering.{nat_cmp};
ghost use Rattle.byte_text.specs.Name.{upper_name};
ghost use Rattle.command_registry.specs.Registry.{name_of};

use crate::Owner;
use core_types::CommandSpec;
use std::cmp::Ordering;

// The place of the command of this name, or where it would stand, by a search that halves what is
// left.
pub(crate) fn place_of(commands: &[(CommandSpec, Owner)], name: &[u8]) -> Result<usize, usize>
    ensures bound { IsSearchInRange result (length commands.now) }
    ensures found { IsBinarySearchResult
        (λ c. slice_cmp nat_cmp (name_of c) (upper_name name.now)) commands.now result }
{
    commands.binary_search_by(|command| compare(command.0.name, name))
}

// Compares two names without regard to case, by their bytes in upper case.
fn compare(a: &[u8], b: &[u8]) -> Ordering
    ensures { result ≡ slice_cmp nat_cmp (upper_name a.now) (upper_name b.now) }
{
    a.iter()
        .map(|byte| byte.to_ascii_uppercase())
        .cmp(b.iter().map(|byte| byte.to_ascii_uppercase()))
}
