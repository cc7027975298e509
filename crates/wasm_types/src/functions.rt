// The functions of a module and their types. The imports have the first indices.
ghost use Rattle.std.specs.Prelude.{◌≡◌, IfSome, IfNone, None, Some, slice_get};
ghost use Rattle.wasm_types.specs.Calls.{result_of};
ghost use Rattle.wasm_types.specs.Functions.{imported_type, own_type, same_type, same_types, type_of};
ghost use Rattle.wasm_types.specs.Modules.{func_type, module_of};
ghost use Rattle.wasm_types.specs.Stack.{is_same};

use crate::code::ValType;
use crate::modules::{FuncType, ImportDesc, Module};

/// The type of a function's result, if it has one.
pub fn result_of(typing: &FuncType) -> Option<ValType>
    ensures { result ≡ result_of (func_type typing.now) }
{
    typing.results.first().copied()
}

/// The type with this index.
#[inline]
pub fn type_at<'m>(module: &'m Module, index: u32) -> Option<&'m FuncType>
    ensures some { IfSome result (λ typing. slice_get (module_of «module».now).types index ≡ Some (func_type typing.now)) }
    ensures none { IfNone result (slice_get (module_of «module».now).types index ≡ None) }
{
    module.types.get(index as usize)
}

/// The type of an imported function.
#[inline]
pub fn imported_type<'m>(module: &'m Module, place: usize) -> Option<&'m FuncType>
    ensures some { IfSome result (λ typing.
        imported_type (module_of «module».now) (slice_get (module_of «module».now).imports place) ≡ Some (func_type typing.now)) }
    ensures none { IfNone result (imported_type (module_of «module».now) (slice_get (module_of «module».now).imports place) ≡ None) }
{
    let Some(import) = module.imports.get(place) else {
        return None;
    };
    match import.desc {
        ImportDesc::Func(type_index) => type_at(module, type_index),
        _ => None,
    }
}

// The type of the module's own function at this place.
fn own_type<'m>(module: &'m Module, place: usize) -> Option<&'m FuncType>
    ensures some { IfSome result (λ typing. own_type (module_of «module».now) (slice_get (module_of «module».now).funcs place) ≡ Some (func_type typing.now)) }
    ensures none { IfNone result (own_type (module_of «module».now) (slice_get (module_of «module».now).funcs place) ≡ None) }
{
    let Some(own) = module.funcs.get(place) else {
        return None;
    };
    type_at(module, own.type_index)
}

/// The type of the function with this index.
pub fn type_of<'m>(module: &'m Module, index: u32) -> Option<&'m FuncType>
    ensures some { IfSome result (λ typing. type_of (module_of «module».now) index ≡ Some (func_type typing.now)) }
    ensures none { IfNone result (type_of (module_of «module».now) index ≡ None) }
{
    let place = index as usize;
    if place < module.imports.len() {
        imported_type(module, place)
    } else {
        own_type(module, place - module.imports.len())
    }
}

/// Whether the types are the same.
pub fn is_same_type(a: &FuncType, b: &FuncType) -> bool
    ensures { result ≡ same_type (func_type a.now) (func_type b.now) }
{
    same_types(&a.params, &b.params) && same_types(&a.results, &b.results)
}

fn same_types(a: &[ValType], b: &[ValType]) -> bool
    ensures { result ≡ same_types a.now b.now }
{
    if a.len() != b.len() {
        return false;
    }
    for i in 0..a.len() {
        if !is_same(a[i], b[i]) {
            return false;
        }
    }
    true
}

fn is_same(a: ValType, b: ValType) -> bool
    ensures { result ≡ is_same a b }
{
    match (a, b) {
        (ValType::I32, ValType::I32)
        | (ValType::I64, ValType::I64)
        | (ValType::F32, ValType::F32)
        | (ValType::F64, ValType::F64) => true,
        _ => false,
    }
}
