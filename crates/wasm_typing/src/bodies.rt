// The code of a function. It is read by recursion, as deep as its blocks nest: at most 1,000 in a decoded
// module.
ghost use Rattle.std.specs.Prelude.{◌≡◌, ◌∷◌, reverse, OnOk};
ghost use Rattle.wasm_types.specs.Code.{tree, trees};
ghost use Rattle.wasm_types.specs.Labels.{stack_around_block, block_of};
ghost use Rattle.wasm_types.specs.Stack.{no_operands};
ghost use Rattle.wasm_types.specs.Typing.{typed_instr, typed_instrs, IsWellTyped};
ghost use Rattle.wasm_typing.specs.inside.Results.{FollowsTyping};
ghost use Rattle.wasm_typing.specs.Steps.{JudgesCode};

use crate::accesses::{
    typed_global_get, typed_global_set, typed_load, typed_local_get, typed_local_set,
    typed_local_tee, typed_memory_grow, typed_memory_size, typed_store,
};
use crate::calls::{typed_call, typed_call_indirect, typed_operator};
use crate::context::Context;
use crate::labels::{Label, typed_branch, typed_branch_if, typed_branch_table};
use crate::operands::Operands;
use crate::refusal::TypingError;
use crate::steps::{
    jump_with, pop_result, pop_type, push_result, push_type, typed_drop_top, typed_select,
};
use std::alloc::Global;
use wasm_types::{Instr, ValType};

/// Whether the body of a function is well typed.
pub fn check_body(alloc: Global, context: &Context<'_>, body: &[Instr]) -> Result<(), TypingError>
    ensures { JudgesCode (IsWellTyped context.now (trees body.now)) result }
{
    let mut operands = Operands::new(alloc);
    let mut labels = Vec::new(alloc);
    check_inside(
        context,
        context.gives,
        context.gives,
        body,
        &mut labels,
        &mut operands,
    )
}

// A block or a loop, and its result.
#[cycle(check)]
fn check_block(
    context: &Context<'_>,
    label: Label,
    result_type: Option<ValType>,
    body: &[Instr],
    labels: &mut Vec<Label>,
    operands: &mut Operands,
) -> Result<(), TypingError>
    ensures typed { FollowsTyping
        (block_of result_type
        (typed_instrs context.now (trees body.now) (label ∷ reverse labels.old.items) no_operands)
        operands.old.current)
        operands.old operands.new result }
    ensures labels { OnOk result (labels.new.items ≡ labels.old.items) }
{
    check_inside(context, label, result_type, body, labels, operands)?;
    push_result(operands, result_type)
}

// The code of a block, from no operands to exactly its result.
#[cycle(check)]
fn check_inside(
    context: &Context<'_>,
    label: Label,
    result_type: Option<ValType>,
    body: &[Instr],
    labels: &mut Vec<Label>,
    operands: &mut Operands,
) -> Result<(), TypingError>
    ensures typed { FollowsTyping
        (stack_around_block result_type
        (typed_instrs context.now (trees body.now) (label ∷ reverse labels.old.items) no_operands)
        operands.old.current)
        operands.old operands.new result }
    ensures labels { OnOk result (labels.new.items ≡ labels.old.items) }
{
    operands.enter()?;
    labels.push(label)?;
    check_all(context, body, labels, operands)?;
    labels.pop();
    pop_result(operands, result_type)?;
    if operands.leave() {
        Ok(())
    } else {
        Err(TypingError::Invalid)
    }
}

#[cycle(check)]
fn check_all(
    context: &Context<'_>,
    body: &[Instr],
    labels: &mut Vec<Label>,
    operands: &mut Operands,
) -> Result<(), TypingError>
    ensures typed { FollowsTyping
        (typed_instrs context.now (trees body.now) (reverse labels.old.items) operands.old.current)
        operands.old operands.new result }
    ensures labels { OnOk result (labels.new.items ≡ labels.old.items) }
{
    for instr in body {
        check(context, instr, labels, operands)?;
    }
    Ok(())
}

#[cycle(check)]
fn check(
    context: &Context<'_>,
    instr: &Instr,
    labels: &mut Vec<Label>,
    operands: &mut Operands,
) -> Result<(), TypingError>
    ensures typed { FollowsTyping
        (typed_instr context.now (tree instr.now) (reverse labels.old.items) operands.old.current)
        operands.old operands.new result }
    ensures labels { OnOk result (labels.new.items ≡ labels.old.items) }
{
    match instr {
        Instr::Unreachable => {
            operands.jump();
            Ok(())
        }
        Instr::Nop => Ok(()),
        Instr::Block(gives, body) => check_block(context, *gives, *gives, body, labels, operands),
        Instr::Loop(gives, body) => check_block(context, None, *gives, body, labels, operands),
        Instr::If(gives, on_true, on_false) => {
            pop_type(operands, ValType::I32)?;
            check_inside(context, *gives, *gives, on_true, labels, operands)?;
            check_block(context, *gives, *gives, on_false, labels, operands)
        }
        Instr::Br(depth) => typed_branch(labels, *depth, operands),
        Instr::BrIf(depth) => typed_branch_if(labels, *depth, operands),
        Instr::BrTable(depths, last) => typed_branch_table(labels, depths, *last, operands),
        Instr::Return => jump_with(operands, context.gives),
        Instr::CallFunc(index) => typed_call(context.types, context.funcs, *index, operands),
        Instr::CallIndirect(index) => {
            typed_call_indirect(context.has_table, context.types, *index, operands)
        }
        Instr::DropTop => typed_drop_top(operands),
        Instr::Select => typed_select(operands),
        Instr::LocalGet(index) => typed_local_get(&context.locals, *index, operands),
        Instr::LocalSet(index) => typed_local_set(&context.locals, *index, operands),
        Instr::LocalTee(index) => typed_local_tee(&context.locals, *index, operands),
        Instr::GlobalGet(index) => typed_global_get(context.globals, *index, operands),
        Instr::GlobalSet(index) => typed_global_set(context.globals, *index, operands),
        Instr::Load { opcode, align, .. } => typed_load(
            context.has_memory,
            *opcode,
            *align,
            operands,
        ),
        Instr::Store { opcode, align, .. } => typed_store(
            context.has_memory,
            *opcode,
            *align,
            operands,
        ),
        Instr::MemorySize => typed_memory_size(context.has_memory, operands),
        Instr::MemoryGrow => typed_memory_grow(context.has_memory, operands),
        Instr::ConstI32(_) => push_type(operands, ValType::I32),
        Instr::ConstI64(_) => push_type(operands, ValType::I64),
        Instr::ConstF32(_) => push_type(operands, ValType::F32),
        Instr::ConstF64(_) => push_type(operands, ValType::F64),
        Instr::Op(opcode) => typed_operator(*opcode, operands),
    }
}
