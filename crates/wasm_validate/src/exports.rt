// Exports: what they name, and that their names differ.
ghost use Rattle.std.specs.Prelude.{◌≡◌, ◌↔◌, ◌≢◌, AllPairs, IfOk, IsTrue, MatchBool, length, map};
ghost use Rattle.std.specs.List.{list_all};
ghost use Rattle.wasm_types.specs.Context.{funcs_of};
ghost use Rattle.wasm_types.specs.Modules.{module_of};
ghost use Rattle.wasm_types.specs.Rules.{names_something};
ghost use Rattle.wasm_validate.specs.inside.Neighbors.{HasEqualNeighbors, HasNoEqualNeighbors};
ghost use Rattle.wasm_types.specs.declared.modules.Export.{Export};

use crate::segments::has_index;
use std::alloc::{AllocError, Global};
use wasm_types::{Export, ExportDesc, Module};

/// Whether the index of each export names something.
pub(crate) fn are_exports(module: &Module, type_indices: &[u32]) -> bool
    requires { type_indices.now ≡ funcs_of (module_of «module».now) }
    ensures { result
        ≡ list_all (λ e. names_something (module_of «module».now) e.desc) «module».now.exports.items }
{
    module
        .exports
        .iter()
        .all(|e| names_something(module, type_indices, e.desc))
}

fn names_something(module: &Module, type_indices: &[u32], desc: ExportDesc) -> bool
    requires { type_indices.now ≡ funcs_of (module_of «module».now) }
    ensures { result ≡ names_something (module_of «module».now) desc }
{
    match desc {
        ExportDesc::Func(index) => has_index(type_indices.len(), index),
        ExportDesc::Table(index) => has_index(module.tables.len(), index),
        ExportDesc::Memory(index) => has_index(module.mems.len(), index),
        ExportDesc::Global(index) => has_index(module.globals.len(), index),
    }
}

/// Whether the exports' names differ.
pub(crate) fn have_own_names(alloc: Global, exports: &[Export]) -> Result<bool, AllocError>
    ensures { IfOk result (λ yes.
        IsTrue yes ↔ AllPairs ◌≢◌ (map (λ (e : Export). e.name.items) exports.now)) }
{
    let mut names = Vec::new(alloc);
    for e in exports {
        names.push(e.name.as_slice())?;
    }
    names.sort_unstable();
    Ok(!has_equal_neighbors(&names))
}

fn has_equal_neighbors(names: &[&[u8]]) -> bool
    ensures { MatchBool result
        (HasEqualNeighbors (λ n. n.now) names.now)
        (HasNoEqualNeighbors (λ n. n.now) names.now) }
{
    for i in 1..names.len() {
        if is_same(names[i - 1], names[i]) {
            return true;
        }
    }
    false
}

fn is_same(a: &[u8], b: &[u8]) -> bool
    ensures { IsTrue result ↔ (a.now ≡ b.now) }
{
    a == b
}
