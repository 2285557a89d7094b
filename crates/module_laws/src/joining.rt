//! Whether two sets can be one.

ghost use Rattle.std.specs.Prelude.{◌≡◌, ◌≤◌, map, true, false, IfNone, IfSome, MatchOption, MatchBool};
ghost use Rattle.std.specs.List.{list_any};
ghost use Rattle.core_types.specs.CommandRow.{row_of_spec};
ghost use Rattle.module_laws.specs.Joining.{NoNameTaken, NoCommandTaken, IsFirstTaken, HasTaken, IsJoinFault, CanJoin};
ghost use Rattle.module_laws.specs.Sets.{has_row, has_command, command_count};

use crate::module_set::ModuleSet;
use core_types::CommandSpec;
use type_ids::TypeName;

/// Why two sets are not joined, in the order in which the reasons are looked for.
#[derive(Clone, Copy, Debug, PartialEq, Eq)]
pub enum TwoFault {
    /// Both have a module of this name, which is the first such name of the first set.
    NameTaken(TypeName),
    /// Both have a command of one name.
    CommandTaken,
    /// They have more than 900 commands, or more than 200 modules, together.
    TooMany,
}

/// Two sets that were not joined, and why.
#[derive(Debug, Drop)]
pub struct TwoBack<A, B> {
    /// Why.
    pub fault: TwoFault,
    /// The first set.
    pub a: A,
    /// The second set.
    pub b: B,
}

/// Why these are not joined, if there is a reason.
pub(crate) fn find_fault<A: ModuleSet, B: ModuleSet>(a: &A, b: &B) -> Option<TwoFault>
    ensures { MatchOption result (CanJoin A.modules B.modules) (IsJoinFault A.modules B.modules) }
{
    if let Some(name) = taken_name::<A, B>(a) {
        return Some(TwoFault::NameTaken(name));
    }
    if takes_command(a, b) {
        return Some(TwoFault::CommandTaken);
    }
    let modules = u32::from(A::count()) + u32::from(B::count());
    if command_total(a) + command_total(b) > 900 || modules > 200 {
        Some(TwoFault::TooMany)
    } else {
        None
    }
}

// The first name of the first set that one of the second has.
fn taken_name<A: ModuleSet, B: ModuleSet>(_a: &A) -> Option<TypeName>
    ensures none { IfNone result (NoNameTaken A.modules B.modules) }
    ensures some { IfSome result (IsFirstTaken A.modules B.modules) }
{
    for place in 0..A::count() {
        let name = A::name(place);
        if B::place_of(&name).is_some() {
            return Some(name);
        }
    }
    None
}

// Whether a module of the first set has a command that one of the second has.
fn takes_command<A: ModuleSet, B: ModuleSet>(a: &A, b: &B) -> bool
    ensures { MatchBool result (HasTaken A.modules B.modules) (NoCommandTaken A.modules B.modules) }
{
    for place in 0..A::count() {
        if shares(a.commands(place), b) {
            return true;
        }
    }
    false
}

// Whether one of these commands is one of the set's.
fn shares<B: ModuleSet>(specs: &[CommandSpec], b: &B) -> bool
    ensures { result ≡ list_any
        (λ row. has_command B.modules row.name) (map row_of_spec specs.now) }
{
    for spec in specs {
        if holds_command(b, spec.name) {
            return true;
        }
    }
    false
}

// Whether a module of the set has a command of this name.
fn holds_command<B: ModuleSet>(b: &B, name: &[u8]) -> bool
    ensures { result ≡ has_command B.modules name.now }
{
    for place in 0..B::count() {
        if holds(b.commands(place), name) {
            return true;
        }
    }
    false
}

// Whether one of these commands has this name.
fn holds(specs: &[CommandSpec], name: &[u8]) -> bool
    ensures { result ≡ has_row (map row_of_spec specs.now) name.now }
{
    for spec in specs {
        if spec.name == name {
            return true;
        }
    }
    false
}

// How many commands the modules have together.
fn command_total<A: ModuleSet>(a: &A) -> u32
    ensures value { result ≡ command_count A.modules }
    ensures few { result ≤ 40000 }
{
    let mut total = 0;
    for place in 0..A::count() {
        total += a.commands(place).len() as u32;
    }
    total
}
