// Steps on the operands of the current block.
ghost use Rattle.std.specs.Prelude.{◌≡◌, Some};
ghost use Rattle.wasm_types.specs.Stack.{pop_type, pop_types, pop_result, push_result, push_operand, typed_select, common_type, operate, jump_with, typed_drop_top};
ghost use Rattle.wasm_typing.specs.inside.Results.{FollowsTyping, FindsType};

use crate::operands::{Operand, Operands};
use crate::refusal::TypingError;
use wasm_types::ValType;

/// An operand of this type.
pub(crate) fn pop_type(operands: &mut Operands, expected: ValType) -> Result<(), TypingError>
    ensures { FollowsTyping (pop_type expected operands.old.current) operands.old operands.new result }
{
    match operands.pop() {
        None => Err(TypingError::Invalid),
        Some(None) => Ok(()),
        Some(Some(found)) => {
            if found == expected {
                Ok(())
            } else {
                Err(TypingError::Invalid)
            }
        }
    }
}

/// Operands of these types, the last on top.
// Where nothing is known of what lies below, the rest is not read: a call in unreachable code costs no
// more than its operands that are there.
pub(crate) fn pop_types(operands: &mut Operands, expected: &[ValType]) -> Result<(), TypingError>
    ensures { FollowsTyping (pop_types expected.now operands.old.current) operands.old operands.new result }
{
    for t in expected.iter().rev() {
        if operands.is_unknown() {
            return Ok(());
        }
        pop_type(operands, *t)?;
    }
    Ok(())
}

pub(crate) fn pop_result(
    operands: &mut Operands,
    result_type: Option<ValType>,
) -> Result<(), TypingError>
    ensures { FollowsTyping (pop_result result_type operands.old.current) operands.old operands.new result }
{
    match result_type {
        None => Ok(()),
        Some(t) => pop_type(operands, t),
    }
}

pub(crate) fn push_result(
    operands: &mut Operands,
    result_type: Option<ValType>,
) -> Result<(), TypingError>
    ensures { FollowsTyping
        (Some (push_result result_type operands.old.current))
        operands.old operands.new result }
{
    match result_type {
        None => Ok(()),
        Some(t) => push_type(operands, t),
    }
}

pub(crate) fn push_type(operands: &mut Operands, pushed: ValType) -> Result<(), TypingError>
    ensures { FollowsTyping
        (Some (push_operand (Some pushed) operands.old.current))
        operands.old operands.new result }
{
    operands.push(Some(pushed))?;
    Ok(())
}

/// An operator's operands in, and its result out.
pub(crate) fn operate(
    operands: &mut Operands,
    params: &[ValType],
    result_type: Option<ValType>,
) -> Result<(), TypingError>
    ensures { FollowsTyping
        (operate params.now result_type operands.old.current)
        operands.old operands.new result }
{
    pop_types(operands, params)?;
    push_result(operands, result_type)
}

/// A jump that takes the label's operand.
pub(crate) fn jump_with(operands: &mut Operands, label: Option<ValType>) -> Result<(), TypingError>
    ensures { FollowsTyping (jump_with label operands.old.current) operands.old operands.new result }
{
    pop_result(operands, label)?;
    operands.jump();
    Ok(())
}

/// An operand of any type.
pub(crate) fn typed_drop_top(operands: &mut Operands) -> Result<(), TypingError>
    ensures { FollowsTyping (typed_drop_top operands.old.current) operands.old operands.new result }
{
    match operands.pop() {
        None => Err(TypingError::Invalid),
        Some(_) => Ok(()),
    }
}

/// One of two operands of one type, by a test.
pub(crate) fn typed_select(operands: &mut Operands) -> Result<(), TypingError>
    ensures { FollowsTyping (typed_select operands.old.current) operands.old operands.new result }
{
    pop_type(operands, ValType::I32)?;
    let Some(second) = operands.pop() else {
        return Err(TypingError::Invalid);
    };
    let Some(first) = operands.pop() else {
        return Err(TypingError::Invalid);
    };
    let both = common_type(first, second)?;
    operands.push(both)?;
    Ok(())
}

fn common_type(first: Operand, second: Operand) -> Result<Operand, TypingError>
    ensures { FindsType (common_type first second) result }
{
    match (first, second) {
        (None, second) => Ok(second),
        (first, None) => Ok(first),
        (Some(t), Some(u)) => {
            if t == u {
                Ok(first)
            } else {
                Err(TypingError::Invalid)
            }
        }
    }
}
