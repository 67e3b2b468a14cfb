//! Modules that are known to be valid.
ghost use Rattle.std.specs.Prelude.{◌≡◌, ◌≤◌, ℕ};
ghost use Rattle.gu_types.specs.Depth.{types_of, depth};
ghost use Rattle.gu_model.specs.Valid.{Valid};

use gu_syntax::Module;
use std::marker::Model;

/// A module that is valid (core specification 3.0, 3.5 Modules), and in which no type has more than
/// 63 supertypes above it. Contracts see the module.
#[derive(Debug, Drop)]
pub struct ValidModule {
    module: Module,
}

impl Model for ValidModule {
    ghost use Rattle.gu_syntax.specs.declared.module.Module.{Module as Whole};
    ghost use Rattle.gu_syntax.specs.contracts.module.Module as whole;
    ghost use Rattle.gu_model.specs.ValidModule.{IsValidModule};

    ghost Value = { Whole };

    ghost coded = { whole.the_row.coded };

    ghost view = { λ valid. valid.module };

    ghost invariant = { λ valid. IsValidModule valid.module };
}

impl ValidModule {
    /// A module that is known to be valid, and whose types are not deep.
    pub fn new(m: Module) -> ValidModule
        requires valid { Valid m }
        requires shallow { (i : ℕ) → depth (types_of m.types) i ≤ 63 }
        ensures { result ≡ m }
    {
        ValidModule { module: m }
    }

    /// The module.
    pub fn get(&self) -> &Module
        ensures same { result.now ≡ self.now }
        ensures valid { Valid self.now }
        ensures shallow { (i : ℕ) → depth (types_of self.now.types) i ≤ 63 }
    {
        &self.module
    }

    /// The module, which may be changed from then on.
    pub fn into_module(self) -> Module
        ensures same { result ≡ self }
        ensures valid { Valid result }
        ensures shallow { (i : ℕ) → depth (types_of result.types) i ≤ 63 }
    {
        let ValidModule { module } = self;
        module
    }
}
