// The function that runs first, and the one that the process runs.
ghost use Rattle.std.specs.Prelude.{◌≡◌, All, false, nat_lt};
ghost use Rattle.std.specs.Option.{option_map_or};
ghost use Rattle.guest_module.specs.Library.{IsOfLibrary};
ghost use Rattle.wasm_types.specs.Modules.{module_of};
ghost use Rattle.wasm_validate.specs.Shape.{has_plain_start};
ghost use Rattle.guest_module.specs.Valid.{has_no_start, import_count};

use guest_module::{exported_start, has_plain_type, import_count};
use wasm_types::Module;

/// Whether the start section, if there is one, names a function with no parameters and no result.
pub(crate) fn is_start(module: &Module) -> bool
    requires { All (IsOfLibrary (module_of «module».now).types) (module_of «module».now).imports }
    ensures { result ≡ has_plain_start (module_of «module».now) }
{
    match module.start {
        Some(index) => has_plain_type(module, index),
        None => true,
    }
}

/// Whether no export `_start` names a function of the module itself with no parameters and no result, or
/// the start section names an import.
pub(crate) fn has_no_start(module: &Module) -> bool
    requires { All (IsOfLibrary (module_of «module».now).types) (module_of «module».now).imports }
    ensures { result ≡ has_no_start (module_of «module».now) }
{
    match exported_start(module) {
        Some(_) => starts_with_import(module),
        None => true,
    }
}

fn starts_with_import(module: &Module) -> bool
    requires { All (IsOfLibrary (module_of «module».now).types) (module_of «module».now).imports }
    ensures { result
        ≡ option_map_or (λ f. nat_lt f (import_count (module_of «module».now)))
        «module».now.start false }
{
    match module.start {
        Some(index) => (index as usize) < import_count(module),
        None => false,
    }
}
