//! What stands for the values of modules where there are no modules.

ghost use Rattle.std.specs.Prelude.{◌≡◌};

use key_cmds::ModuleValue;
use std::marker::Model;
use type_ids::TypeName;

/// A value of a module, in a host without modules. Nothing makes one.
#[derive(Debug, Drop)]
pub struct NoValue {
    name: TypeName,
}

impl Model for NoValue {
    ghost use Rattle.std.specs.Prelude.{[]};
    ghost use Rattle.core_types.specs.Keys.{Native};
    ghost use Rattle.host_core.specs.Core.{native_code};

    ghost Value = { Native };

    ghost coded = { native_code };

    ghost view = { λ v. record { name = v.name; items = [] } };
}

impl NoValue {
    // A second one. Takes no memory.
    pub(crate) fn copy(&self) -> NoValue
        ensures { result ≡ self.now }
    {
        NoValue { name: self.name }
    }
}

impl ModuleValue for NoValue {
    ghost use Rattle.host_core.specs.Serving.{type_name};

    ghost type_name = { type_name };

    fn type_name(&self) -> TypeName {
        self.name
    }
}
