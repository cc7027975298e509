// The types of a function's parameters and locals.
ghost use Rattle.std.specs.Prelude.{◌≡◌, ℕ, ◌<◌, ◌≤◌, ◌++◌, IfOk, option_map, slice_get};
ghost use Rattle.std.specs.List.Sorted.{IsNonDecreasing, IsPartitionPoint};
ghost use Rattle.wasm_types.specs.Context.{expand_locals};
ghost use Rattle.wasm_types.specs.declared.code.ValType.{ValType};

use std::alloc::{AllocError, Global};
use std::marker::Model;
use wasm_types::ValType;

/// The types of a function's parameters and locals. Locals are in runs of one type and are not
/// written out, since a few bytes of a module may declare billions of them.
#[derive(Drop)]
pub struct Locals<'a> {
    params: &'a [ValType],
    runs: &'a [(u32, ValType)],
    // How many locals there are up to the end of each run.
    ends: Vec<u64>,
}

impl<'a> Model for Locals<'a> {
    ghost use Rattle.std.specs.Prelude.{List, ◌≡◌, ◌++◌};
    ghost use Rattle.wasm_types.specs.declared.code.ValType.{ValType};

    ghost Value = { List ValType };

    ghost use Rattle.wasm_types.specs.Context.{expand_locals};
    ghost use Rattle.wasm_typing.specs.inside.Locals.{ends_from};

    ghost view = { λ l. l.params.now ++ expand_locals l.runs.now };

    ghost invariant = { λ l. l.ends.items ≡ ends_from 0 l.runs.now };
}

impl<'a> Locals<'a> {
    pub fn new(
        alloc: Global,
        params: &'a [ValType],
        runs: &'a [(u32, ValType)],
    ) -> Result<Locals<'a>, AllocError>
        ensures { IfOk result (λ locals. locals ≡ params.now ++ expand_locals runs.now) }
    {
        let mut ends = Vec::new(alloc);
        let mut end: u64 = 0;
        for run in runs {
            end = end.saturating_add(u64::from(run.0));
            ends.push(end)?;
        }
        Ok(Locals { params, runs, ends })
    }

    /// The type of the parameter or local with this index, if there is one.
    pub fn get(&self, index: u32) -> Option<ValType>
        ensures { result ≡ slice_get self.now index }
    {
        let index = index as usize;
        if index < self.params.len() {
            return Some(self.params[index]);
        }
        let local = (index - self.params.len()) as u64;
        type_of_run(self.runs, run_at(&self.ends, local))
    }
}

// The run in which a local stands.
fn run_at(ends: &[u64], local: u64) -> usize
    requires { IsNonDecreasing ends.now }
    ensures { IsPartitionPoint (λ e. e ≤ local) (λ e. local < e) ends.now result }
{
    ends.partition_point(|end| *end <= local)
}

fn type_of_run(runs: &[(u32, ValType)], run: usize) -> Option<ValType>
    ensures { result ≡ option_map (λ (r : ℕ × ValType). r.1) (slice_get runs.now run) }
{
    match runs.get(run) {
        Some(found) => Some(found.1),
        None => None,
    }
}
