//! The name of a value's type.

ghost use Rattle.std.specs.Prelude.{◌≡◌};

use crate::module_set::ModuleSet;
use type_ids::TypeName;

/// The name of the type of a value, as its module tells it. It is the name by which contracts see
/// the value.
pub fn name_of<M: ModuleSet>(_set: &M, value: &M::Value) -> TypeName
    ensures name { result ≡ (M.Value.native value.now).name }
{
    M::name(M::owner(value))
}
