// Modules over the limits of size.
ghost use Rattle.std.specs.Prelude.{◌≡◌, ◌+◌, ℕ, length, map, nat_lt, sum};
ghost use Rattle.std.specs.List.{list_any};
ghost use Rattle.wasm_types.specs.Limits.{most_locals};
ghost use Rattle.wasm_types.specs.Modules.{func, module_of};
ghost use Rattle.guest_module.specs.Valid.{is_over_limit, local_count};

use wasm_types::{Func, Limits, Module, ValType, type_at};

// A memory's first pages, a table's elements, and a function's parameters and locals, all at most.
const MOST_FIRST_PAGES: u32 = 256;

const MOST_ELEMENTS: u32 = 65_536;

const MOST_LOCALS: u32 = 4_096;

/// Whether a memory, a table or a function of the module is too large.
#[tactic(auto, using(crate::proofs::ListTests::list_any_map))]
pub(crate) fn is_over_limit(module: &Module) -> bool
    ensures { result ≡ is_over_limit (module_of «module».now) }
{
    if has_min_over(&module.mems, MOST_FIRST_PAGES) {
        return true;
    }
    if has_min_over(&module.tables, MOST_ELEMENTS) {
        return true;
    }
    has_large_func(module)
}

fn has_min_over(all: &[Limits], bound: u32) -> bool
    ensures { result ≡ list_any (λ (l : Limits). nat_lt bound l.min) all.now }
{
    all.iter().any(|limits| bound < limits.min)
}

fn has_large_func(module: &Module) -> bool
    ensures { result
        ≡ list_any (λ f. nat_lt most_locals (local_count (module_of «module».now) (func f)))
        «module».now.funcs.items }
{
    module
        .funcs
        .iter()
        .any(|function| is_large(module, function))
}

fn is_large(module: &Module, function: &Func) -> bool
    ensures { result ≡ nat_lt most_locals (local_count (module_of «module».now) (func function.now)) }
{
    let params = match type_at(module, function.type_index) {
        Some(found) => found.params.len(),
        None => 0,
    };
    params > MOST_LOCALS as usize || is_sum_over(&function.locals, MOST_LOCALS - params as u32)
}

// Whether the counts of the runs have a sum above the bound. The sum itself may be too large for a number.
fn is_sum_over(runs: &[(u32, ValType)], bound: u32) -> bool
    ensures { result ≡ nat_lt bound (sum (map (λ run. run.0) runs.now)) }
{
    let mut left = bound;
    for (count, _) in runs {
        if *count > left {
            return true;
        }
        left -= *count;
    }
    false
}
