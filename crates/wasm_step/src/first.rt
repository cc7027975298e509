// The thread that runs first.
ghost use Rattle.std.specs.Prelude.{◌≡◌, ℕ, IfOk, IsSome, Some};
ghost use Rattle.wasm_types.specs.Modules.{module_of};
ghost use Rattle.guest_module.specs.Valid.{IsValid};
ghost use Rattle.wasm_types.specs.Functions.{own_func};
ghost use Rattle.guest_module.specs.Start.{IsOwnPlain, entry_from};
ghost use Rattle.wasm_step.specs.Strand.{first_thread};

use crate::calls::call_start;
use guest_module::{Callee, ValidModule, callee_at};
use std::alloc::{AllocError, Global};
use wasm_stack::Stack;

/// The module's own function with this index.
pub(crate) fn own<'m>(module: &'m ValidModule, func: u32) -> Callee<'m>
    requires { IsSome (own_func (module_of «module».now) func) }
    ensures found { own_func (module_of «module».now) func ≡ Some result }
    ensures valid { IsValid (module_of «module».now) }
{
    let inner = module.module();
    match callee_at(module, (func as usize).saturating_sub(inner.imports.len())) {
        Some(callee) => callee,
        None => unreachable!(),
    }
}

/// The thread that runs first, at its start, with the start section's function above it.
pub(crate) fn first(alloc: Global, module: &ValidModule) -> Result<Stack<'_>, AllocError>
    ensures thread { IfOk result (λ t. first_thread (module_of «module».now) ≡ Some t) }
    ensures valid { IsValid (module_of «module».now) }
    ensures entry { IfOk result (λ _. (f : ℕ) → entry_from (module_of «module».now) (module_of «module».now).exports ≡ Some f → IsOwnPlain (module_of «module».now) f) }
    ensures start { IfOk result (λ _. (f : ℕ) → (module_of «module».now).start ≡ Some f → IsOwnPlain (module_of «module».now) f) }
{
    let entry = module.entry();
    let mut stack = Stack::start(entry, own(module, entry), Vec::new(alloc), None)?;
    let found = module.start();
    if let Some(start) = found {
        call_start(&mut stack, start, own(module, start))?;
    }
    Ok(stack)
}
