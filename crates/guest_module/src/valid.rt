// Modules that are known to be valid.
ghost use Rattle.std.specs.Prelude.{◌≡◌, ◌<◌, IfOk, IfSome, Some, length, map, nat_le, option_map, slice_get};
ghost use Rattle.wasm_types.specs.Context.{filled_runs};
ghost use Rattle.wasm_types.specs.Locals.{zeros};
ghost use Rattle.guest_module.specs.inside.CallRows.{call_rows, row_of};
ghost use Rattle.guest_module.specs.Library.{importable, kind_at};
ghost use Rattle.wasm_types.specs.Modules.{func, module_of};
ghost use Rattle.guest_module.specs.Start.{IsOwnPlain, entry_from};
ghost use Rattle.guest_module.specs.Valid.{IsValid};

use crate::library::importable;
use crate::start::exported_start;
use call_table::Kind;
use std::alloc::{AllocError, Global};
use std::marker::Model;
use wasm_types::{Declared, Func, Import, Module, ValType, result_of, type_at};

/// Of so many locals what they start as is kept, in all of a module.
const MOST_KEPT_LOCALS: usize = 1_048_576;

/// So few values are copied one by one.
const FEW: usize = 4;

/// What calls of one of the module's own functions look up: the locals that it declares, how many operands a call takes,
/// the type of what it leaves, and whether it takes few operands and declares few locals.
#[derive(Drop)]
pub(crate) struct CallRow {
    pub(crate) declared: Declared,
    pub(crate) takes: usize,
    pub(crate) gives: Option<ValType>,
    pub(crate) few: bool,
}

/// A module that is valid. Contracts see it as its module.
#[derive(Drop)]
pub struct ValidModule {
    valid: Module,
    // For each import, the kind of its calls.
    kinds: Vec<Option<Kind>>,
    // For each of the module's own functions.
    rows: Vec<CallRow>,
    // The function that is exported as its start.
    entry: u32,
}

impl Model for ValidModule {
    ghost use Rattle.std.specs.Coded.{codes};
    ghost use Rattle.wasm_types.specs.declared.modules.Module.{Module};
    ghost use Rattle.wasm_types.specs.contracts.code.Instr as instr;

    ghost Value = { Module };

    ghost coded = { Prim.hlevel (codes, instr.the_row.coded) };

    ghost use Rattle.std.specs.Prelude.{◌≡◌, Some, map};
    ghost use Rattle.guest_module.specs.inside.CallRows.{call_rows};
    ghost use Rattle.guest_module.specs.Library.{importable};
    ghost use Rattle.wasm_types.specs.Modules.{module_of};
    ghost use Rattle.guest_module.specs.Start.{entry_from};
    ghost use Rattle.guest_module.specs.Valid.{IsValid};

    ghost view = { λ v. v.valid };

    ghost invariant = { λ v.
        IsValid (module_of v.valid)
        × (v.rows.items ≡ call_rows (module_of v.valid))
        × (v.kinds.items ≡ map (λ i. importable i.name.items) v.valid.imports.items)
        × (entry_from (module_of v.valid) (module_of v.valid).exports ≡ Some v.entry) };
}

/// A valid module as one that is known to be.
pub fn claim(alloc: Global, module: Module) -> Result<ValidModule, AllocError>
    requires { IsValid (module_of «module») }
    ensures { IfOk result (λ v. v ≡ «module») }
{
    let kinds = import_kinds(alloc, &module.imports)?;
    let rows = call_rows(alloc, &module)?;
    let entry = entry(&module);
    Ok(ValidModule {
        valid: module,
        kinds,
        rows,
        entry,
    })
}

// The kind of each import's calls.
fn import_kinds(alloc: Global, imports: &[Import]) -> Result<Vec<Option<Kind>>, AllocError>
    ensures { IfOk result (λ kinds. kinds.items ≡ map (λ i. importable i.name.items) imports.now) }
{
    imports
        .iter()
        .map(|import| importable(&import.name))
        .collect(alloc)
}

// What calls of each of the module's own functions look up. What locals start as is kept of the first 1,048,576 in all.
fn call_rows(alloc: Global, module: &Module) -> Result<Vec<CallRow>, AllocError>
    ensures { IfOk result (λ all. all.items ≡ call_rows (module_of «module».now)) }
{
    let mut all = Vec::new(alloc);
    let mut most = MOST_KEPT_LOCALS;
    for function in &module.funcs {
        let declared = Declared::new(alloc, &function.locals, most)?;
        if let Some(starts) = declared.starts() {
            most = most.saturating_sub(starts.len());
        }
        all.push(row_of(module, function, declared))?;
    }
    Ok(all)
}

// What calls of this function look up, which declares these locals.
fn row_of(module: &Module, function: &Func, declared: Declared) -> CallRow
    requires { declared ≡ filled_runs (func function.now).locals }
    ensures { result ≡ row_of (module_of «module».now) (func function.now) }
{
    let (takes, gives) = match type_at(module, function.type_index) {
        Some(typing) => (typing.params.len(), result_of(typing)),
        None => (0, None),
    };
    let few = takes <= FEW && declares_few(&declared);
    CallRow {
        declared,
        takes,
        gives,
        few,
    }
}

// Whether a function declares few locals.
fn declares_few(declared: &Declared) -> bool
    ensures { result ≡ nat_le (length (zeros declared.now)) 4 }
{
    match declared.count() {
        Some(count) => count <= FEW,
        None => false,
    }
}

// The function that a valid module exports as its start.
fn entry(module: &Module) -> u32
    requires { IsValid (module_of «module».now) }
    ensures { entry_from (module_of «module».now) (module_of «module».now).exports ≡ Some result }
{
    match exported_start(module) {
        Some(entry) => entry,
        None => unreachable!(),
    }
}

impl ValidModule {
    /// The module.
    pub fn module(&self) -> &Module
        ensures same { result.now ≡ self.now }
        ensures valid { IsValid (module_of result.now) }
    {
        &self.valid
    }

    /// The kind of the calls of the function with this index. `None` comes exactly where no such function
    /// is imported.
    pub fn import_kind(&self, func: u32) -> Option<Kind>
        ensures { result ≡ kind_at (module_of self.now) func }
    {
        self.kinds.get(func as usize).copied().flatten()
    }

    // What calls of the module's own function at this place look up, which there is.
    #[inline(always)]
    pub(crate) fn row(&self, place: usize) -> &CallRow
        requires { place < length (module_of self.now).funcs }
        ensures { option_map (row_of (module_of self.now)) (slice_get (module_of self.now).funcs place) ≡ Some result.now }
    {
        &self.rows[place]
    }

    /// The function that the module exports as its start.
    pub fn entry(&self) -> u32
        ensures is { entry_from (module_of self.now) (module_of self.now).exports ≡ Some result }
        ensures plain { IsOwnPlain (module_of self.now) result }
    {
        self.entry
    }

    /// The function that the start section names, if there is one.
    pub fn start(&self) -> Option<u32>
        ensures is { result ≡ (module_of self.now).start }
        ensures plain { IfSome result (λ f. IsOwnPlain (module_of self.now) f) }
    {
        self.valid.start
    }
}
