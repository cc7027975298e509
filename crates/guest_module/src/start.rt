// The functions that run first, and what the start section and the export of a start may name.
ghost use Rattle.std.specs.Prelude.{◌≡◌, All, IfNone, IfSome, bytes_eq, codes, false, true};
ghost use Rattle.std.specs.List.{list_any};
ghost use Rattle.std.specs.Option.{option_map_or};
ghost use Rattle.wasm_types.specs.Context.{func_type_of};
ghost use Rattle.guest_module.specs.Library.{IsOfLibrary};
ghost use Rattle.wasm_types.specs.Modules.{export as export_of, func_type, module_of};
ghost use Rattle.guest_module.specs.Start.{entry_from, exported_function};
ghost use Rattle.guest_module.specs.Valid.{import_count, is_entry, is_plain, is_start_export};

use wasm_types::{Export, ExportDesc, FuncType, Module, type_of};

/// The function that the module exports as its start, if there is one.
pub fn exported_start(module: &Module) -> Option<u32>
    requires { All (IsOfLibrary (module_of «module».now).types) (module_of «module».now).imports }
    ensures is { result ≡ entry_from (module_of «module».now) (module_of «module».now).exports }
    ensures some { IfSome result (λ _. list_any (is_start_export (module_of «module».now)) (module_of «module».now).exports ≡ true) }
    ensures none { IfNone result (list_any (is_start_export (module_of «module».now)) (module_of «module».now).exports ≡ false) }
{
    entry_from(module)
}

fn entry_from(module: &Module) -> Option<u32>
    requires { All (IsOfLibrary (module_of «module».now).types) (module_of «module».now).imports }
    ensures { result ≡ entry_from (module_of «module».now) (module_of «module».now).exports }
{
    for export in &module.exports {
        if is_start_export(module, export) {
            return exported_function(export.desc);
        }
    }
    None
}

fn exported_function(desc: ExportDesc) -> Option<u32>
    ensures { result ≡ exported_function desc }
{
    match desc {
        ExportDesc::Func(func) => Some(func),
        _ => None,
    }
}

fn is_start_export(module: &Module, export: &Export) -> bool
    requires { All (IsOfLibrary (module_of «module».now).types) (module_of «module».now).imports }
    ensures { result ≡ is_start_export (module_of «module».now) (export_of export.now) }
{
    is_start_name(&export.name) && is_entry(module, export.desc)
}

fn is_start_name(name: &[u8]) -> bool
    ensures { result ≡ bytes_eq name.now (codes "_start") }
{
    let start: &[u8] = b"_start";
    name == start
}

fn is_entry(module: &Module, desc: ExportDesc) -> bool
    requires { All (IsOfLibrary (module_of «module».now).types) (module_of «module».now).imports }
    ensures { result ≡ is_entry (module_of «module».now) desc }
{
    match desc {
        ExportDesc::Func(func) => func as usize >= import_count(module)
            && has_plain_type(module, func),
        _ => false,
    }
}

/// How many functions are imported.
pub fn import_count(module: &Module) -> usize
    requires { All (IsOfLibrary (module_of «module».now).types) (module_of «module».now).imports }
    ensures { result ≡ import_count (module_of «module».now) }
{
    module.imports.len()
}

/// Whether there is a function with this index, with no parameters and no result.
pub fn has_plain_type(module: &Module, func: u32) -> bool
    requires { All (IsOfLibrary (module_of «module».now).types) (module_of «module».now).imports }
    ensures { result ≡ option_map_or is_plain (func_type_of (module_of «module».now) func) false }
{
    match type_of(module, func) {
        Some(typing) => is_plain(typing),
        None => false,
    }
}

fn is_plain(typing: &FuncType) -> bool
    ensures { result ≡ is_plain (func_type typing.now) }
{
    typing.params.is_empty() && typing.results.is_empty()
}
