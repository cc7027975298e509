// Where floats are in a module.
ghost use Rattle.std.specs.Prelude.{◌≡◌};
ghost use Rattle.std.specs.List.{list_any};
ghost use Rattle.wasm_types.specs.Accesses.{load_access, store_access};
ghost use Rattle.wasm_types.specs.Code.{tree, trees};
ghost use Rattle.wasm_types.specs.Floats.{has_float, has_float_func, has_float_global, has_float_type, have_float, is_float, is_float_access, is_float_import, is_float_operator, is_float_result, is_with_floats};
ghost use Rattle.wasm_types.specs.Modules.{func, func_type, global_def, module_of};
ghost use Rattle.wasm_types.specs.Numeric.{operator_of};

use wasm_types::{
    Func, FuncType, GlobalDef, ImportDesc, Instr, Module, ValType, load_access, operator_of,
    store_access,
};

/// Whether a float value type or an instruction on floats stands anywhere in the module.
#[tactic(auto, using(crate::proofs::ListTests::list_any_map))]
pub(crate) fn is_with_floats(module: &Module) -> bool
    ensures { result ≡ is_with_floats (module_of «module».now) }
{
    if in_types(module) {
        return true;
    }
    if in_imports(module) {
        return true;
    }
    if in_funcs(module) {
        return true;
    }
    if in_globals(module) {
        return true;
    }
    in_elems(module) || in_segments(module)
}

fn in_types(module: &Module) -> bool
    ensures { result ≡ list_any (λ t. has_float_type (func_type t)) «module».now.types.items }
{
    module.types.iter().any(|t| has_float_type(t))
}

fn in_imports(module: &Module) -> bool
    ensures { result ≡ list_any (λ i. is_float_import i.desc) «module».now.imports.items }
{
    module.imports.iter().any(|i| is_float_import(i.desc))
}

fn in_funcs(module: &Module) -> bool
    ensures { result ≡ list_any (λ f. has_float_func (func f)) «module».now.funcs.items }
{
    module.funcs.iter().any(|f| has_float_func(f))
}

fn in_globals(module: &Module) -> bool
    ensures { result ≡ list_any (λ g. has_float_global (global_def g)) «module».now.globals.items }
{
    module.globals.iter().any(|g| has_float_global(g))
}

fn in_elems(module: &Module) -> bool
    ensures { result ≡ list_any (λ e. have_float (trees e.offset.items)) «module».now.elems.items }
{
    module.elems.iter().any(|e| have_float(&e.offset))
}

fn in_segments(module: &Module) -> bool
    ensures { result ≡ list_any (λ s. have_float (trees s.offset.items)) «module».now.segments.items }
{
    module.segments.iter().any(|s| have_float(&s.offset))
}

fn has_float_type(t: &FuncType) -> bool
    ensures { result ≡ has_float_type (func_type t.now) }
{
    any_float(&t.params) || any_float(&t.results)
}

fn any_float(types: &[ValType]) -> bool
    ensures { result ≡ list_any is_float types.now }
{
    types.iter().any(|value_type| value_type.is_float())
}

fn any_float_run(runs: &[(u32, ValType)]) -> bool
    ensures { result ≡ list_any (λ run. is_float run.1) runs.now }
{
    runs.iter().any(|run| run.1.is_float())
}

fn is_float_import(desc: ImportDesc) -> bool
    ensures { result ≡ is_float_import desc }
{
    match desc {
        ImportDesc::Global(value_type, _) => value_type.is_float(),
        _ => false,
    }
}

fn has_float_func(f: &Func) -> bool
    ensures { result ≡ has_float_func (func f.now) }
{
    any_float_run(&f.locals) || have_float(&f.body)
}

fn has_float_global(g: &GlobalDef) -> bool
    ensures { result ≡ has_float_global (global_def g.now) }
{
    g.kind.is_float() || have_float(&g.init)
}

// Whether one of the instructions is on floats or names a float type.
#[cycle(has_float)]
fn have_float(instrs: &[Instr]) -> bool
    ensures { result ≡ have_float (trees instrs.now) }
{
    for instr in instrs {
        if has_float(instr) {
            return true;
        }
    }
    false
}

// Whether the instruction or one inside it is.
#[cycle(has_float)]
fn has_float(instr: &Instr) -> bool
    ensures { result ≡ has_float (tree instr.now) }
{
    match instr {
        Instr::Block(result, body) | Instr::Loop(result, body) => {
            is_float_result(*result) || have_float(body)
        }
        Instr::If(result, on_true, on_false) => {
            if is_float_result(*result) {
                return true;
            }
            if have_float(on_true) {
                return true;
            }
            have_float(on_false)
        }
        Instr::Load { opcode, .. } => is_float_load(*opcode),
        Instr::Store { opcode, .. } => is_float_store(*opcode),
        Instr::ConstF32(_) | Instr::ConstF64(_) => true,
        Instr::Op(opcode) => is_float_operator(*opcode),
        _ => false,
    }
}

fn is_float_result(value_type: Option<ValType>) -> bool
    ensures { result ≡ is_float_result value_type }
{
    match value_type {
        Some(value_type) => value_type.is_float(),
        None => false,
    }
}

fn is_float_load(opcode: u8) -> bool
    ensures { result ≡ is_float_access (load_access opcode) }
{
    match load_access(opcode) {
        Some(found) => found.moved.is_float(),
        None => false,
    }
}

fn is_float_store(opcode: u8) -> bool
    ensures { result ≡ is_float_access (store_access opcode) }
{
    match store_access(opcode) {
        Some(found) => found.moved.is_float(),
        None => false,
    }
}

fn is_float_operator(opcode: u8) -> bool
    ensures { result ≡ is_float_operator (operator_of opcode) }
{
    match operator_of(opcode) {
        Some(found) => found.operand.is_float() || found.gives.is_float(),
        None => false,
    }
}
