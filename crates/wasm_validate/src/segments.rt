// Element and data segments.
ghost use Rattle.std.specs.Prelude.{◌≡◌, length, nat_lt};
ghost use Rattle.std.specs.List.{list_all};
ghost use Rattle.wasm_types.specs.Context.{funcs_of};
ghost use Rattle.wasm_types.specs.Modules.{elem, module_of, segment};
ghost use Rattle.wasm_types.specs.Rules.{is_elem, is_segment};

use crate::constants::is_offset;
use wasm_types::{Elem, Module, Segment};

/// Whether each element segment has a table, an offset and functions that are there.
pub(crate) fn are_elems(module: &Module, type_indices: &[u32]) -> bool
    requires { type_indices.now ≡ funcs_of (module_of «module».now) }
    ensures { result
        ≡ list_all (λ e. is_elem (module_of «module».now) (elem e)) «module».now.elems.items }
{
    module
        .elems
        .iter()
        .all(|e| is_elem(module, type_indices, e))
}

fn is_elem(module: &Module, type_indices: &[u32], e: &Elem) -> bool
    requires { type_indices.now ≡ funcs_of (module_of «module».now) }
    ensures { result ≡ is_elem (module_of «module».now) (elem e.now) }
{
    if !has_index(module.tables.len(), e.table) || !is_offset(&module.globals, &e.offset) {
        return false;
    }
    have_indices(type_indices.len(), &e.funcs)
}

/// Whether each data segment has a memory and an offset that are there.
pub(crate) fn are_segments(module: &Module) -> bool
    ensures { result
        ≡ list_all (λ s. is_segment (module_of «module».now) (segment s)) «module».now.segments.items }
{
    module.segments.iter().all(|s| is_segment(module, s))
}

fn is_segment(module: &Module, s: &Segment) -> bool
    ensures { result ≡ is_segment (module_of «module».now) (segment s.now) }
{
    has_index(module.mems.len(), s.memory) && is_offset(&module.globals, &s.offset)
}

// Whether each index is one of so many things.
fn have_indices(count: usize, indices: &[u32]) -> bool
    ensures { result ≡ list_all (λ i. nat_lt i count) indices.now }
{
    indices.iter().all(|index| has_index(count, *index))
}

/// Whether the index is one of so many things.
pub(crate) fn has_index(count: usize, index: u32) -> bool
    ensures { result ≡ nat_lt index count }
{
    (index as usize) < count
}
