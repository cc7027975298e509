// The refusals in their order.
ghost use Rattle.std.specs.Prelude.{◌≡◌, All, MatchResult};
ghost use Rattle.wasm_types.specs.Context.{funcs_of};
ghost use Rattle.guest_module.specs.Library.{IsOfLibrary};
ghost use Rattle.wasm_types.specs.Modules.{module_of};
ghost use Rattle.wasm_types.specs.Rules.{IsTyped};
ghost use Rattle.guest_module.specs.Valid.{IsValid};
ghost use Rattle.wasm_validate.specs.Refusals.{IsFirst};
ghost use Rattle.wasm_typing.specs.Steps.{JudgesCode};

use crate::floats::is_with_floats;
use crate::functions::{check_functions, type_indices};
use crate::imports::are_of_library;
use crate::invalid::Invalid;
use crate::shape::check_shape;
use crate::sizes::is_over_limit;
use crate::start::has_no_start;
use std::alloc::Global;
use wasm_types::Module;
use wasm_typing::TypingError;

/// Whether the module is valid, or else the first refusal that holds.
pub(crate) fn check(alloc: Global, module: &Module) -> Result<(), Invalid>
    ensures { MatchResult result
        (λ _. IsValid (module_of «module».now))
        (λ e. IsFirst (module_of «module».now) e) }
{
    if is_with_floats(module) {
        return Err(Invalid::HasFloat);
    }
    if !are_of_library(&module.types, &module.imports) {
        return Err(Invalid::BadImport);
    }
    let type_indices = type_indices(alloc, module)?;
    match check_typed(alloc, module, &type_indices) {
        Ok(()) => {}
        Err(TypingError::Invalid) => return Err(Invalid::Untyped),
        Err(TypingError::OutOfMemory) => return Err(Invalid::NoMemory),
    }
    if is_over_limit(module) {
        return Err(Invalid::OverLimit);
    }
    if has_no_start(module) {
        return Err(Invalid::NoStart);
    }
    Ok(())
}

// Whether the module is well typed.
fn check_typed(alloc: Global, module: &Module, type_indices: &[u32]) -> Result<(), TypingError>
    requires indices { type_indices.now ≡ funcs_of (module_of «module».now) }
    requires imports { All (IsOfLibrary (module_of «module».now).types) (module_of «module».now).imports }
    ensures { JudgesCode (IsTyped (module_of «module».now)) result }
{
    check_shape(alloc, module, type_indices)?;
    check_functions(alloc, module, type_indices)
}
