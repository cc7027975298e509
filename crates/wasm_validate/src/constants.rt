// Constant expressions: initial values of globals, and offsets of segments.
ghost use Rattle.std.specs.Prelude.{◌≡◌, ◌≢◌, ◌∷◌, [], MatchOption, length, map};
ghost use Rattle.std.specs.List.{list_all};
ghost use Rattle.wasm_types.specs.Code.{tree, trees};
ghost use Rattle.wasm_types.specs.Modules.{global_def};
ghost use Rattle.wasm_types.specs.Rules.{constant_type, is_fixed_global, is_initial_value, is_offset};
ghost use Rattle.wasm_validate.specs.inside.Constants.{constant_of, gives_offset};

use wasm_types::{GlobalDef, Instr, Module, ValType};

/// Whether each global's first value is one constant of its type.
pub(crate) fn are_initial(module: &Module) -> bool
    ensures { result ≡ list_all (λ g. is_initial_value (global_def g)) «module».now.globals.items }
{
    module.globals.iter().all(|global| is_initial(global))
}

fn is_initial(global: &GlobalDef) -> bool
    ensures { result ≡ is_initial_value (global_def global.now) }
{
    match constant_type(&global.init) {
        Some(value_type) => global.kind == value_type,
        None => false,
    }
}

fn constant_type(instrs: &[Instr]) -> Option<ValType>
    ensures { result ≡ constant_type (trees instrs.now) }
{
    match only(instrs) {
        Some(instr) => constant(instr),
        None => None,
    }
}

/// Whether the expression is one constant i32, or an immutable global of this type.
pub(crate) fn is_offset(globals: &[GlobalDef], instrs: &[Instr]) -> bool
    ensures { result ≡ is_offset (map global_def globals.now) (trees instrs.now) }
{
    match only(instrs) {
        Some(instr) => gives_offset(globals, instr),
        None => false,
    }
}

// The one instruction, if there is one and no other.
fn only(instrs: &[Instr]) -> Option<&Instr>
    ensures { MatchOption result (length instrs.now ≢ 1) (λ i. instrs.now ≡ i.now ∷ []) }
{
    match instrs {
        [instr] => Some(instr),
        _ => None,
    }
}

fn constant(instr: &Instr) -> Option<ValType>
    ensures { result ≡ constant_of (tree instr.now) }
{
    match instr {
        Instr::ConstI32(_) => Some(ValType::I32),
        Instr::ConstI64(_) => Some(ValType::I64),
        Instr::ConstF32(_) => Some(ValType::F32),
        Instr::ConstF64(_) => Some(ValType::F64),
        _ => None,
    }
}

fn gives_offset(globals: &[GlobalDef], instr: &Instr) -> bool
    ensures { result ≡ gives_offset (map global_def globals.now) (tree instr.now) }
{
    match instr {
        Instr::ConstI32(_) => true,
        Instr::GlobalGet(index) => match globals.get(*index as usize) {
            Some(global) => is_fixed(global),
            None => false,
        },
        _ => false,
    }
}

fn is_fixed(global: &GlobalDef) -> bool
    ensures { result ≡ is_fixed_global (global_def global.now) }
{
    global.kind == ValType::I32 && !global.mutable
}
