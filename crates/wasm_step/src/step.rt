// One instruction by its full case.
ghost use Rattle.std.specs.Prelude.{◌≡◌, IfOk, OnOk};
ghost use Rattle.wasm_types.specs.Code.{tree};
ghost use Rattle.wasm_types.specs.Modules.{module_of};
ghost use Rattle.wasm_stack.specs.Answer.{after_of};
ghost use Rattle.wasm_step.specs.Reduce.{instr_row, reduce_instruction};
ghost use Rattle.wasm_stack.specs.After.{limited_thread};

use crate::calls::{call, call_indirect};
use crate::memory::{global_get, global_set, load, memory_grow, memory_size, write};
use guest_module::ValidModule;
use std::alloc::AllocError;
use wasm_stack::{Next, Stack, unless_stuck};
use wasm_store::Store;
use wasm_types::{Instr, Trap, Value};

#[inline(always)]
fn instr_row<'m>(
    thread: &mut Stack<'m>,
    module: &'m ValidModule,
    store: &mut Store<'m>,
    instr: &'m Instr,
) -> Result<Next, AllocError>
    requires { module_of «module».now ≡ store.old.«module» }
    ensures after { IfOk result (λ a. limited_thread (after_of a thread.new) ≡ limited_thread (instr_row (tree instr.now) thread.old store.old).after) }
    ensures store { OnOk result (store.new ≡ (instr_row (tree instr.now) thread.old store.old).store) }
{
    match instr {
        Instr::Unreachable => Ok(Next::Trapped(Trap::Unreachable)),
        Instr::Nop => Ok(Next::Going),
        Instr::Block(_, body) | Instr::Loop(_, body) => {
            thread.open(instr, body)?;
            Ok(Next::Going)
        }
        Instr::If(_, on_true, on_false) => thread.choose(instr, on_true, on_false),
        Instr::Br(n) => Ok(thread.branch(*n).next()),
        Instr::BrIf(n) => Ok(thread.branch_if(*n).next()),
        Instr::BrTable(labels, default) => Ok(thread.branch_table(labels, *default).next()),
        Instr::Return => Ok(thread.return_from().next()),
        Instr::CallFunc(index) => call(thread, module, *index),
        Instr::CallIndirect(type_index) => call_indirect(thread, module, store, *type_index),
        Instr::DropTop => Ok(unless_stuck(thread.drop_top())),
        Instr::Select => Ok(unless_stuck(thread.select())),
        Instr::LocalGet(x) => thread.local_get(*x),
        Instr::LocalSet(x) => Ok(unless_stuck(thread.local_set(*x))),
        Instr::LocalTee(x) => Ok(unless_stuck(thread.local_tee(*x))),
        Instr::GlobalGet(x) => global_get(thread, store, *x),
        Instr::GlobalSet(x) => Ok(unless_stuck(global_set(thread, store, *x))),
        Instr::Load { opcode, offset, .. } => Ok(load(thread, store, *opcode, *offset)),
        Instr::Store { opcode, offset, .. } => write(thread, store, *opcode, *offset),
        Instr::MemorySize => memory_size(thread, store),
        Instr::MemoryGrow => memory_grow(thread, store),
        Instr::ConstI32(bits) => {
            thread.push(Value::I32(*bits))?;
            Ok(Next::Going)
        }
        Instr::ConstI64(bits) => {
            thread.push(Value::I64(*bits))?;
            Ok(Next::Going)
        }
        Instr::ConstF32(_) | Instr::ConstF64(_) => Ok(Next::Stuck),
        Instr::Op(op) => Ok(thread.numeric(*op)),
    }
}

/// One instruction, which the thread has passed. Room for further operands is found.
#[inline(never)]
pub(crate) fn step<'m>(
    thread: &mut Stack<'m>,
    module: &'m ValidModule,
    store: &mut Store<'m>,
    instr: &'m Instr,
) -> Result<Next, AllocError>
    requires { module_of «module».now ≡ store.old.«module» }
    ensures after { IfOk result (λ a. after_of a thread.new ≡ (reduce_instruction (tree instr.now) thread.old store.old).after) }
    ensures store { OnOk result (store.new ≡ (reduce_instruction (tree instr.now) thread.old store.old).store) }
{
    match instr_row(thread, module, store, instr)? {
        Next::Going => {
            if !thread.is_within() {
                return Ok(Next::Trapped(Trap::Exhausted));
            }
            thread.find_room();
            Ok(Next::Going)
        }
        halted => Ok(halted),
    }
}
