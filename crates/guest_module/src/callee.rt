// A function of the module as calls take it.
ghost use Rattle.std.specs.Prelude.{◌≡◌, ◌<◌, IfNone, IfSome, None, Some, ◌&&◌, length, nat_le, slice_get};
ghost use Rattle.guest_module.specs.Calls.{HasCallType};
ghost use Rattle.wasm_types.specs.Code.{trees};
ghost use Rattle.wasm_types.specs.Locals.{zeros};
ghost use Rattle.wasm_types.specs.Modules.{module_of};

use crate::valid::ValidModule;
use std::marker::Model;
use wasm_types::{Declared, Func, Instr, ValType};

/// A function of the module, and the locals that it declares. Contracts see the function alone.
#[derive(Drop)]
pub struct Callee<'m> {
    func: &'m Func,
    declared: &'m Declared,
}

impl<'m> Model for Callee<'m> {
    ghost use Rattle.std.specs.Coded.{codes};
    ghost use Rattle.wasm_types.specs.Coding.{trees_code};
    ghost use Rattle.wasm_types.specs.Modules as modules;

    ghost Value = { modules.Func };

    ghost coded = { Prim.hlevel (codes, trees_code) };

    ghost use Rattle.std.specs.Prelude.{◌≡◌};
    ghost use Rattle.wasm_types.specs.Locals.{zeros};

    ghost view = { λ c. modules.func c.func.now };

    ghost invariant = { λ c. zeros c.declared.now ≡ zeros (modules.func c.func.now).locals };
}

impl<'m> Callee<'m> {
    /// The index of its type.
    #[inline(always)]
    pub fn type_index(&self) -> u32
        ensures { result ≡ self.now.type_index }
    {
        self.func.type_index
    }

    /// Its instructions.
    #[inline(always)]
    pub fn body(&self) -> &'m [Instr]
        ensures { trees result.now ≡ self.now.body }
    {
        &self.func.body
    }

    /// Its declared locals.
    #[inline(always)]
    pub fn declared(&self) -> &'m Declared
        ensures { zeros result.now ≡ zeros self.now.locals }
    {
        self.declared
    }
}

/// The module's own function at this place.
#[inline(always)]
pub fn callee_at<'m>(module: &'m ValidModule, place: usize) -> Option<Callee<'m>>
    ensures some { IfSome result (λ callee. slice_get (module_of «module».now).funcs place ≡ Some callee) }
    ensures none { IfNone result (slice_get (module_of «module».now).funcs place ≡ None) }
{
    if place >= module.module().funcs.len() {
        return None;
    }
    Some(callee_there(module, place))
}

// The same of a function that there is.
#[inline(always)]
fn callee_there<'m>(module: &'m ValidModule, place: usize) -> Callee<'m>
    requires { place < length (module_of «module».now).funcs }
    ensures { slice_get (module_of «module».now).funcs place ≡ Some result }
{
    let func = &module.module().funcs[place];
    let declared = &module.row(place).declared;
    Callee { func, declared }
}

/// A function of the module, with how many operands a call of it takes, the type of what that leaves, and whether it takes
/// few operands and declares few locals.
#[derive(Drop)]
pub struct Called<'m> {
    pub callee: Callee<'m>,
    pub takes: usize,
    pub gives: Option<ValType>,
    pub few: bool,
}

/// The module's own function at this place, which there is, with what a call takes and gives.
#[inline(always)]
pub fn called_at<'m>(module: &'m ValidModule, place: usize) -> Called<'m>
    requires { place < length (module_of «module».now).funcs }
    ensures own { slice_get (module_of «module».now).funcs place ≡ Some result.callee }
    ensures typed { HasCallType (module_of «module».now) result.callee result.takes result.gives }
    ensures few { result.few ≡ (nat_le result.takes 4 && nat_le (length (zeros result.callee.locals)) 4) }
{
    // Its `ensures` tells the proof that the module is valid.
    let _ = module.module();
    let callee = callee_there(module, place);
    let row = module.row(place);
    Called {
        callee,
        takes: row.takes,
        gives: row.gives,
        few: row.few,
    }
}
