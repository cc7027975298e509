// The locals that a function declares, and what they start as.
ghost use Rattle.std.specs.Prelude.{◌≡◌, ◌++◌, IfOk, IfSome, OnOk, length, take};
ghost use Rattle.wasm_types.specs.Context.{filled_runs};
ghost use Rattle.wasm_types.specs.Locals.{HasLocalCount, zero_of, zeros};

use crate::code::{ValType, Value};
use crate::slot::Slot;
use std::alloc::{AllocError, Global};
use std::marker::Model;

/// How many operands, locals and labels a thread may have.
pub const MOST_THREAD_SIZE: usize = 16384;

/// The locals that a function declares, as counts and types without those of count 0, of which a module can declare
/// millions. Contracts see these runs.
#[derive(Drop)]
pub struct Declared {
    runs: Vec<(u32, ValType)>,
    // How many locals there are, if a thread may have as many.
    count: Option<usize>,
    // What they start as, where that is kept: it is copied sooner than short runs are walked.
    starts: Option<Vec<Slot>>,
}

impl Model for Declared {
    ghost use Rattle.std.specs.Prelude.{◌≡◌, IfSome, List, ℕ};
    ghost use Rattle.wasm_types.specs.declared.code.ValType.{ValType};

    ghost Value = { List (ℕ × ValType) };

    ghost use Rattle.wasm_types.specs.Locals.{HasLocalCount, zeros};

    ghost view = { λ d. d.runs.items };

    ghost invariant = { λ d. HasLocalCount d.runs.items d.count × IfSome d.starts (λ starts. starts.items ≡ zeros d.runs.items) };
}

impl Declared {
    /// The locals of these runs. What they start as is kept where they are at most `most`.
    pub fn new(
        alloc: Global,
        locals: &[(u32, ValType)],
        most: usize,
    ) -> Result<Declared, AllocError>
        ensures { IfOk result (λ declared. declared ≡ filled_runs locals.now) }
    {
        let runs = filled_runs(alloc, locals)?;
        let count = count_of(&runs);
        let starts = match count {
            Some(n) if n <= most => Some(starts_of(alloc, &runs)?),
            _ => None,
        };
        Ok(Declared {
            runs,
            count,
            starts,
        })
    }

    /// How many locals there are. `None` comes where a thread may not have as many.
    #[inline(always)]
    pub fn count(&self) -> Option<usize>
        ensures { HasLocalCount self.now result }
    {
        self.count
    }

    /// What the locals start as, where that is kept.
    #[inline(always)]
    pub fn starts(&self) -> Option<&[Slot]>
        ensures { IfSome result (λ starts. starts.now ≡ zeros self.now) }
    {
        match &self.starts {
            Some(starts) => Some(starts.as_slice()),
            None => None,
        }
    }

    /// What the locals start as goes after these values.
    pub fn append(&self, values: &mut Vec<Slot>) -> Result<(), AllocError>
        ensures ok { OnOk result (values.new.items ≡ values.old.items ++ zeros self.now) }
        ensures kept { take (length values.old.items) values.new.items ≡ values.old.items }
    {
        match &self.starts {
            Some(starts) => values.extend_from_slice(starts),
            None => append_zeros(values, &self.runs),
        }
    }
}

/// What a local or a global of this type starts as.
pub fn zero_of(value_type: ValType) -> Value
    ensures { result ≡ zero_of value_type }
{
    match value_type {
        ValType::I32 | ValType::F32 => Value::I32(0),
        ValType::I64 | ValType::F64 => Value::I64(0),
    }
}

// The runs that are not empty.
fn filled_runs(alloc: Global, locals: &[(u32, ValType)]) -> Result<Vec<(u32, ValType)>, AllocError>
    ensures { IfOk result (λ runs. runs.items ≡ filled_runs locals.now) }
{
    let mut runs = Vec::new(alloc);
    for run in locals {
        if 0 < run.0 {
            runs.push(*run)?;
        }
    }
    Ok(runs)
}

// How many locals these runs have, if a thread may have as many.
fn count_of(runs: &[(u32, ValType)]) -> Option<usize>
    ensures { HasLocalCount runs.now result }
{
    let mut count = 0;
    for run in runs {
        if run.0 as usize > MOST_THREAD_SIZE - count {
            return None;
        }
        count += run.0 as usize;
    }
    Some(count)
}

// What the locals of these runs start as.
fn starts_of(alloc: Global, runs: &[(u32, ValType)]) -> Result<Vec<Slot>, AllocError>
    ensures { IfOk result (λ starts. starts.items ≡ zeros runs.now) }
{
    let mut starts = Vec::new(alloc);
    append_zeros(&mut starts, runs)?;
    Ok(starts)
}

fn append_zeros(values: &mut Vec<Slot>, runs: &[(u32, ValType)]) -> Result<(), AllocError>
    ensures ok { OnOk result (values.new.items ≡ values.old.items ++ zeros runs.now) }
    ensures kept { take (length values.old.items) values.new.items ≡ values.old.items }
{
    for run in runs {
        let zero = Slot::of(zero_of(run.1));
        values.resize(values.len() + run.0 as usize, zero)?;
    }
    Ok(())
}
