// Functions that can handle signals.
ghost use Rattle.std.specs.Prelude.{◌≡◌, false};
ghost use Rattle.std.specs.Option.{option_map_or};
ghost use Rattle.wasm_store.specs.Store.{is_handler, is_number_param, takes_number};
ghost use Rattle.wasm_types.specs.Functions.{type_of};
ghost use Rattle.wasm_types.specs.Modules.{func_type, module_of};

use wasm_types::{FuncType, Module, ValType, type_of};

/// Whether the module itself defines the function, with one parameter of 32 bits and no result.
pub(crate) fn is_handler(module: &Module, index: u32) -> bool
    ensures { result ≡ is_handler (module_of «module».now) index }
{
    index as usize >= module.imports.len() && has_handler_type(module, index)
}

fn has_handler_type(module: &Module, index: u32) -> bool
    ensures { result ≡ option_map_or takes_number (type_of (module_of «module».now) index) false }
{
    match type_of(module, index) {
        Some(typing) => takes_number(typing),
        None => false,
    }
}

fn takes_number(typing: &FuncType) -> bool
    ensures { result ≡ takes_number (func_type typing.now) }
{
    is_number_param(&typing.params) && typing.results.is_empty()
}

fn is_number_param(params: &[ValType]) -> bool
    ensures { result ≡ is_number_param params.now }
{
    match params {
        [ValType::I32] => true,
        _ => false,
    }
}
