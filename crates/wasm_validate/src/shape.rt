// The rules of a module but those of its functions' code.
ghost use Rattle.std.specs.Prelude.{◌≡◌, All};
ghost use Rattle.wasm_types.specs.Context.{funcs_of};
ghost use Rattle.guest_module.specs.Library.{IsOfLibrary};
ghost use Rattle.wasm_types.specs.Modules.{module_of};
ghost use Rattle.wasm_types.specs.Rules.{HasShape};
ghost use Rattle.wasm_validate.specs.Shape.{is_linked, is_within_limits};
ghost use Rattle.wasm_typing.specs.Steps.{JudgesCode};

use crate::constants::are_initial;
use crate::exports::{are_exports, have_own_names};
use crate::imports::have_types;
use crate::limits::{are_memories, are_tables, have_few_results};
use crate::segments::{are_elems, are_segments};
use crate::start::is_start;
use std::alloc::Global;
use wasm_types::Module;
use wasm_typing::TypingError;

/// Whether the module keeps all rules but those of its functions' code.
pub(crate) fn check_shape(
    alloc: Global,
    module: &Module,
    type_indices: &[u32],
) -> Result<(), TypingError>
    requires indices { type_indices.now ≡ funcs_of (module_of «module».now) }
    requires imports { All (IsOfLibrary (module_of «module».now).types) (module_of «module».now).imports }
    ensures { JudgesCode (HasShape (module_of «module».now)) result }
{
    if !is_within_limits(module) {
        return Err(TypingError::Invalid);
    }
    if !is_linked(module, type_indices) {
        return Err(TypingError::Invalid);
    }
    if have_own_names(alloc, &module.exports)? {
        Ok(())
    } else {
        Err(TypingError::Invalid)
    }
}

#[tactic(auto, using(crate::proofs::ListTests::list_all_map))]
fn is_within_limits(module: &Module) -> bool
    ensures { result ≡ is_within_limits (module_of «module».now) }
{
    if !have_few_results(&module.types) {
        return false;
    }
    if module.tables.len() > 1 {
        return false;
    }
    if module.mems.len() > 1 {
        return false;
    }
    are_tables(&module.tables) && are_memories(&module.mems)
}

#[tactic(auto, using(crate::proofs::ListTests::list_all_map))]
fn is_linked(module: &Module, type_indices: &[u32]) -> bool
    requires indices { type_indices.now ≡ funcs_of (module_of «module».now) }
    requires imports { All (IsOfLibrary (module_of «module».now).types) (module_of «module».now).imports }
    ensures { result ≡ is_linked (module_of «module».now) }
{
    if !have_types(module) {
        return false;
    }
    if !are_initial(module) {
        return false;
    }
    if !are_exports(module, type_indices) {
        return false;
    }
    if !is_start(module) {
        return false;
    }
    if !are_elems(module, type_indices) {
        return false;
    }
    are_segments(module)
}
