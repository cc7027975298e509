// A module with several owners.
ghost use Rattle.std.specs.Prelude.{◌≡◌, IfOk};

use crate::valid::ValidModule;
use std::alloc::{AllocError, Global};
use std::marker::Model;
use std::rc::Rc;

/// An owner of a valid module, which is kept once however many owners it has. Contracts see it as its module.
pub struct SharedModule {
    owned: Rc<ValidModule>,
}

// By hand, so that it is proved here, and not in each crate that owns one.
impl Drop for SharedModule {
    fn drop(self) {
        let Self { owned: _owned } = self;
    }
}

impl Model for SharedModule {
    ghost use Rattle.std.specs.Coded.{codes};
    ghost use Rattle.wasm_types.specs.declared.modules.Module.{Module};
    ghost use Rattle.wasm_types.specs.contracts.code.Instr as instr;

    ghost Value = { Module };

    ghost coded = { Prim.hlevel (codes, instr.the_row.coded) };

    ghost view = { λ s. s.owned.value };
}

impl SharedModule {
    /// The one owner of a module.
    pub fn new(alloc: Global, module: ValidModule) -> Result<SharedModule, AllocError>
        ensures { IfOk result (λ s. s ≡ «module») }
    {
        let owned = Rc::new(alloc, module)?;
        Ok(SharedModule { owned })
    }

    /// A further owner of the same module.
    pub fn share(&self) -> Result<SharedModule, AllocError>
        ensures { IfOk result (λ s. s ≡ self.now) }
    {
        let owned = self.owned.clone()?;
        Ok(SharedModule { owned })
    }

    /// The module.
    pub fn module(&self) -> &ValidModule
        ensures { result.now ≡ self.now }
    {
        &self.owned
    }
}
