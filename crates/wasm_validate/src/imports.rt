// Whether imports are functions of the library.
ghost use Rattle.std.specs.Prelude.{◌≡◌, ◌↔◌, All, IsTrue, codes, map, replicate};
ghost use Rattle.std.specs.List.{list_all};
ghost use Rattle.guest_module.specs.Library.{IsOfLibrary, results_of, signature_type};
ghost use Rattle.wasm_types.specs.Modules.{func_type, import_of, module_of};
ghost use Rattle.wasm_types.specs.Rules.{has_type};
ghost use Rattle.wasm_validate.specs.inside.Signatures.{HasTypeUnder};

use crate::segments::has_index;
use call_table::Signature;
use guest_module::importable;
use wasm_types::{FuncType, Import, ImportDesc, Module, ValType};

/// Whether each import is a function of the library, of exactly its type.
pub(crate) fn are_of_library(types: &[FuncType], imports: &[Import]) -> bool
    ensures { IsTrue result ↔ All (IsOfLibrary (map func_type types.now)) (map import_of imports.now) }
{
    for import in imports {
        if !is_of_library(types, import) {
            return false;
        }
    }
    true
}

/// Whether each imported function has a type of the module.
pub(crate) fn have_types(module: &Module) -> bool
    ensures { result ≡ list_all (λ i. has_type (module_of «module».now) i.desc) «module».now.imports.items }
{
    module
        .imports
        .iter()
        .all(|import| has_type(module, import.desc))
}

fn has_type(module: &Module, desc: ImportDesc) -> bool
    ensures { result ≡ has_type (module_of «module».now) desc }
{
    match desc {
        ImportDesc::Func(index) => has_index(module.types.len(), index),
        _ => true,
    }
}

fn is_of_library(types: &[FuncType], import: &Import) -> bool
    ensures { IsTrue result ↔ IsOfLibrary (map func_type types.now) (import_of import.now) }
{
    match import.desc {
        ImportDesc::Func(index) => {
            is_library(&import.module) && has_type_under(types, index, &import.name)
        }
        _ => false,
    }
}

fn is_library(name: &[u8]) -> bool
    ensures { IsTrue result ↔ (name.now ≡ codes "liblog") }
{
    name == b"liblog".as_slice()
}

// Whether the type with this index is that of the call with this name, if a guest can import it.
fn has_type_under(types: &[FuncType], index: u32, name: &[u8]) -> bool
    ensures { IsTrue result ↔ HasTypeUnder (map func_type types.now) index name.now }
{
    let Some(kind) = importable(name) else {
        return false;
    };
    match types.get(index as usize) {
        Some(found) => has_signature(found, kind.signature()),
        None => false,
    }
}

fn has_signature(found: &FuncType, signature: Signature) -> bool
    ensures { IsTrue result ↔ (func_type found.now ≡ signature_type signature) }
{
    let value_type = if signature.wide_param {
        ValType::I64
    } else {
        ValType::I32
    };
    are_copies(&found.params, signature.params as usize, value_type)
        && has_results(&found.results, signature.result)
}

// Whether the list is so many times this type.
fn are_copies(types: &[ValType], count: usize, value_type: ValType) -> bool
    ensures { IsTrue result ↔ (types.now ≡ replicate count value_type) }
{
    if types.len() != count {
        return false;
    }
    for found in types {
        if *found != value_type {
            return false;
        }
    }
    true
}

fn has_results(types: &[ValType], width: u8) -> bool
    ensures { IsTrue result ↔ (types.now ≡ results_of width) }
{
    match width {
        0 => types.is_empty(),
        32 => are_copies(types, 1, ValType::I32),
        _ => are_copies(types, 1, ValType::I64),
    }
}
