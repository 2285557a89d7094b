//! Values of modules, as contracts see them.

ghost use Rattle.std.specs.Prelude.{◌≡◌, true, List};
ghost use Rattle.core_types.specs.Keys.{Native};
ghost use Rattle.module_laws.specs.Types.{NativeType, has_type};

/// A value of a module, which contracts see as the name of its type and what it is saved as. It has
/// no calls.
pub trait Viewed {
    /// The types that such values have.
    ghost types: { List NativeType };

    /// The name of the value's type, and what it is saved as.
    ghost native: { Self → Native };

    /// Each value is of one of the types.
    ghost typed: { (value : Self) → has_type types (native value).name ≡ true };
}
