// Variables and memory.
ghost use Rattle.std.specs.Prelude.{◌≡◌, map};
ghost use Rattle.wasm_types.specs.Accesses.{typed_local_get, typed_local_set, typed_local_tee, typed_global_get, typed_global_set, may_access, typed_load, typed_store, typed_memory_size, typed_memory_grow};
ghost use Rattle.wasm_types.specs.Modules.{global_def, global_type};
ghost use Rattle.wasm_typing.specs.inside.Results.{FollowsTyping};
ghost use Rattle.wasm_types.specs.Opcodes.{access_of};
ghost use Rattle.wasm_typing.specs.inside.Views.{global_of};

use crate::locals::Locals;
use crate::operands::Operands;
use crate::refusal::TypingError;
use crate::steps::{operate, pop_type, push_type};
use wasm_types::ValType::I32;
use wasm_types::{Access, GlobalDef, load_access, store_access};

pub(crate) fn typed_local_get(
    locals: &Locals<'_>,
    index: u32,
    operands: &mut Operands,
) -> Result<(), TypingError>
    ensures { FollowsTyping
        (typed_local_get locals.now index operands.old.current)
        operands.old operands.new result }
{
    match locals.get(index) {
        Some(local) => push_type(operands, local),
        None => Err(TypingError::Invalid),
    }
}

pub(crate) fn typed_local_set(
    locals: &Locals<'_>,
    index: u32,
    operands: &mut Operands,
) -> Result<(), TypingError>
    ensures { FollowsTyping
        (typed_local_set locals.now index operands.old.current)
        operands.old operands.new result }
{
    match locals.get(index) {
        Some(local) => pop_type(operands, local),
        None => Err(TypingError::Invalid),
    }
}

pub(crate) fn typed_local_tee(
    locals: &Locals<'_>,
    index: u32,
    operands: &mut Operands,
) -> Result<(), TypingError>
    ensures { FollowsTyping
        (typed_local_tee locals.now index operands.old.current)
        operands.old operands.new result }
{
    match locals.get(index) {
        Some(local) => {
            pop_type(operands, local)?;
            push_type(operands, local)
        }
        None => Err(TypingError::Invalid),
    }
}

pub(crate) fn typed_global_get(
    globals: &[GlobalDef],
    index: u32,
    operands: &mut Operands,
) -> Result<(), TypingError>
    ensures { FollowsTyping
        (typed_global_get (map global_of globals.now) index operands.old.current)
        operands.old operands.new result }
{
    match globals.get(index as usize) {
        Some(global) => push_type(operands, global.kind),
        None => Err(TypingError::Invalid),
    }
}

pub(crate) fn typed_global_set(
    globals: &[GlobalDef],
    index: u32,
    operands: &mut Operands,
) -> Result<(), TypingError>
    ensures { FollowsTyping
        (typed_global_set (map global_of globals.now) index operands.old.current)
        operands.old operands.new result }
{
    match globals.get(index as usize) {
        Some(global) if global.mutable => pop_type(operands, global.kind),
        _ => Err(TypingError::Invalid),
    }
}

pub(crate) fn typed_load(
    has_memory: bool,
    opcode: u8,
    align: u32,
    operands: &mut Operands,
) -> Result<(), TypingError>
    ensures { FollowsTyping
        (typed_load has_memory opcode align operands.old.current)
        operands.old operands.new result }
{
    match load_access(opcode) {
        Some(found) => {
            if may_access(has_memory, found, align) {
                operate(operands, &[I32], Some(found.moved))
            } else {
                Err(TypingError::Invalid)
            }
        }
        None => Err(TypingError::Invalid),
    }
}

pub(crate) fn typed_store(
    has_memory: bool,
    opcode: u8,
    align: u32,
    operands: &mut Operands,
) -> Result<(), TypingError>
    ensures { FollowsTyping
        (typed_store has_memory opcode align operands.old.current)
        operands.old operands.new result }
{
    match store_access(opcode) {
        Some(found) => {
            if may_access(has_memory, found, align) {
                operate(operands, &[I32, found.moved], None)
            } else {
                Err(TypingError::Invalid)
            }
        }
        None => Err(TypingError::Invalid),
    }
}

pub(crate) fn typed_memory_size(
    has_memory: bool,
    operands: &mut Operands,
) -> Result<(), TypingError>
    ensures { FollowsTyping (typed_memory_size has_memory operands.old.current) operands.old operands.new result }
{
    if has_memory {
        push_type(operands, I32)
    } else {
        Err(TypingError::Invalid)
    }
}

pub(crate) fn typed_memory_grow(
    has_memory: bool,
    operands: &mut Operands,
) -> Result<(), TypingError>
    ensures { FollowsTyping (typed_memory_grow has_memory operands.old.current) operands.old operands.new result }
{
    if has_memory {
        operate(operands, &[I32], Some(I32))
    } else {
        Err(TypingError::Invalid)
    }
}

fn may_access(has_memory: bool, found: Access, align: u32) -> bool
    ensures { result ≡ may_access has_memory (access_of found) align }
{
    has_memory && align <= found.exponent
}
