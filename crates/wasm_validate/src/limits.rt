// How many results, tables and memories there are, and within which limits.
ghost use Rattle.std.specs.Prelude.{◌≡◌, length, nat_le, true};
ghost use Rattle.std.specs.List.{list_all};
ghost use Rattle.std.specs.Option.{option_map_or};
ghost use Rattle.wasm_types.specs.Rules.{is_memory, is_ordered};

use wasm_types::{FuncType, Limits};

/// Whether each function type has one result at most.
pub(crate) fn have_few_results(types: &[FuncType]) -> bool
    ensures { result ≡ list_all (λ t. nat_le (length t.results.items) 1) types.now }
{
    types.iter().all(|t| t.results.len() <= 1)
}

pub(crate) fn are_tables(tables: &[Limits]) -> bool
    ensures { result ≡ list_all is_ordered tables.now }
{
    tables.iter().all(|limits| is_ordered(*limits))
}

pub(crate) fn are_memories(mems: &[Limits]) -> bool
    ensures { result ≡ list_all is_memory mems.now }
{
    mems.iter().all(|limits| is_memory(*limits))
}

fn is_ordered(limits: Limits) -> bool
    ensures { result ≡ is_ordered limits }
{
    match limits.max {
        Some(max) => limits.min <= max,
        None => true,
    }
}

fn is_memory(limits: Limits) -> bool
    ensures { result ≡ is_memory limits }
{
    is_ordered(limits) && limits.min <= 65_536 && is_at_most(limits.max, 65_536)
}

// Whether the maximum, if there is one, is not above the bound.
fn is_at_most(max: Option<u32>, bound: u32) -> bool
    ensures { result ≡ option_map_or (λ max. nat_le max bound) max true }
{
    match max {
        Some(max) => max <= bound,
        None => true,
    }
}
