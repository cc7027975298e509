// Calls and operators.
ghost use Rattle.std.specs.Prelude.{map};
ghost use Rattle.wasm_types.specs.Calls.{typed_call, call_type, typed_call_indirect, typed_operator};
ghost use Rattle.wasm_types.specs.Modules.{func_type};
ghost use Rattle.wasm_typing.specs.inside.Results.{FollowsTyping};

use crate::operands::Operands;
use crate::refusal::TypingError;
use crate::steps::{operate, pop_type};
use wasm_types::{FuncType, ValType, operator_of, result_of};

/// A call of the function with this index.
pub(crate) fn typed_call(
    types: &[FuncType],
    funcs: &[u32],
    func: u32,
    operands: &mut Operands,
) -> Result<(), TypingError>
    ensures { FollowsTyping
        (typed_call (map func_type types.now) funcs.now func operands.old.current)
        operands.old operands.new result }
{
    match funcs.get(func as usize) {
        Some(t) => call_type(types, *t, operands),
        None => Err(TypingError::Invalid),
    }
}

/// A call through the table.
pub(crate) fn typed_call_indirect(
    has_table: bool,
    types: &[FuncType],
    type_index: u32,
    operands: &mut Operands,
) -> Result<(), TypingError>
    ensures { FollowsTyping
        (typed_call_indirect has_table (map func_type types.now) type_index operands.old.current)
        operands.old operands.new result }
{
    pop_type(operands, ValType::I32)?;
    if has_table {
        call_type(types, type_index, operands)
    } else {
        Err(TypingError::Invalid)
    }
}

// A call of a function of this type.
fn call_type(
    types: &[FuncType],
    type_index: u32,
    operands: &mut Operands,
) -> Result<(), TypingError>
    ensures { FollowsTyping
        (call_type (map func_type types.now) type_index operands.old.current)
        operands.old operands.new result }
{
    match types.get(type_index as usize) {
        Some(callee) => operate(operands, &callee.params, result_of(callee)),
        None => Err(TypingError::Invalid),
    }
}

/// An operator by its opcode.
pub(crate) fn typed_operator(opcode: u8, operands: &mut Operands) -> Result<(), TypingError>
    ensures { FollowsTyping (typed_operator opcode operands.old.current) operands.old operands.new result }
{
    match operator_of(opcode) {
        None => Err(TypingError::Invalid),
        Some(op) => {
            if op.is_binary {
                operate(operands, &[op.operand, op.operand], Some(op.gives))
            } else {
                operate(operands, &[op.operand], Some(op.gives))
            }
        }
    }
}
