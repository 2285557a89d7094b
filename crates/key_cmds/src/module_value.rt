//! What is asked of the values of modules.

ghost use Rattle.std.specs.Prelude.{◌≡◌, List, ℕ};

use type_ids::TypeName;

/// A value of a module: it knows the name of its type.
pub trait ModuleValue {
    /// The name of its type, for contracts.
    ghost type_name: { Self → List ℕ };

    /// The name of its type.
    fn type_name(&self) -> TypeName
        ensures name { result ≡ type_name self.now };
}
