// Instructions in place, on a thread within its limits. Where one wants memory, may pass a limit, traps or ends the
// thread, nothing is done.
ghost use Rattle.std.specs.Prelude.{◌≡◌, ◌<◌, ◌≤◌, IfNone, IfOk, IfSome, IsTrue, None, Some, false, if◌then◌else◌, length};
ghost use Rattle.wasm_types.specs.Code.{tree, trees};
ghost use Rattle.wasm_types.specs.Modules.{module_of};
ghost use Rattle.wasm_stack.specs.Answer.{way_of};
ghost use Rattle.wasm_stack.specs.Limits.{ThreadWithin};
ghost use Rattle.wasm_stack.specs.After.{Goes};
ghost use Rattle.wasm_stack.specs.Thread.{with_todo};
ghost use Rattle.wasm_stack.specs.Rows.{local_get, local_set, local_tee};
ghost use Rattle.wasm_step.specs.inside.Rules.{HasRule};
ghost use Rattle.wasm_step.specs.Reduce.{instr_row, store_stays};

use crate::calls::{call_in_place, call_indirect_in_place, is_imported};
use crate::memory::{global_set, load_in_place, write_in_place};
use crate::numbers::numeric_in_place;
use guest_module::ValidModule;
use std::alloc::AllocError;
use wasm_stack::{Stack, Way};
use wasm_store::Store;
use wasm_types::{Instr, Slot};

/// One instruction of a thread that is left these, and what comes after it, unless it is none of these or is left
/// to its full case. What `thread` itself is left is another, so that the burst can keep its own at hand.
#[inline(always)]
pub(crate) fn try_in_place<'m>(
    thread: &mut Stack<'m>,
    module: &'m ValidModule,
    store: &mut Store<'m>,
    instr: &'m Instr,
    todo: &mut &'m [Instr],
) -> Result<Option<Way>, AllocError>
    requires same_module { module_of «module».now ≡ store.old.«module» }
    requires within { ThreadWithin thread.old }
    requires rule { HasRule (tree instr.now) (with_todo thread.old (trees todo.old.now)) store.old }
    ensures done { IfOk result (λ row. IfSome row (λ way. instr_row (tree instr.now) (with_todo thread.old (trees todo.old.now)) store.old
        ≡ store_stays store.new (way_of way (with_todo thread.new (trees todo.new.now))))) }
    ensures within { IfOk result (λ row. row ≡ Some Way.Goes → ThreadWithin thread.new) }
    ensures same { IfOk result (λ row. IfNone row (with_todo thread.new (trees todo.new.now) ≡ with_todo thread.old (trees todo.old.now))) }
    ensures store { IfOk result (λ row. IfNone row (store.new ≡ store.old)) }
{
    let way = match instr {
        Instr::LocalGet(x) => return Ok(done_if(local_get(thread, *x as usize))),
        Instr::LocalSet(x) => {
            local_set(thread, *x as usize);
            return Ok(Some(Way::Goes));
        }
        Instr::LocalTee(x) => {
            local_tee(thread, *x as usize);
            return Ok(Some(Way::Goes));
        }
        Instr::ConstI32(bits) => return Ok(done_if(thread.push_within(Slot::narrow(*bits)))),
        Instr::ConstI64(bits) => return Ok(done_if(thread.push_within(Slot::long(*bits)))),
        Instr::Op(op) => return Ok(done_if(numeric_in_place(thread, *op))),
        Instr::DropTop => {
            thread.drop_one();
            return Ok(Some(Way::Goes));
        }
        Instr::Select => return Ok(done_if(thread.select())),
        Instr::GlobalGet(x) => return Ok(done_if(thread.got_in_place(store.global(*x)))),
        Instr::GlobalSet(x) => return Ok(done_if(global_set(thread, store, *x))),
        Instr::Load { opcode, offset, .. } => return Ok(done_if(load_in_place(
            thread, store, *opcode, *offset,
        ))),
        Instr::Store { opcode, offset, .. } => return Ok(done_if(write_in_place(
            thread, store, *opcode, *offset,
        )?)),
        Instr::MemorySize => {
            let pages = Slot::narrow(store.memory().size());
            return Ok(done_if(thread.push_within(pages)));
        }
        Instr::Nop => return Ok(Some(Way::Goes)),
        Instr::Block(_, body) | Instr::Loop(_, body) => {
            if !thread.open_within(instr, *todo) {
                return Ok(None);
            }
            *todo = body;
            return Ok(Some(Way::Goes));
        }
        Instr::If(_, on_true, on_false) => {
            if !thread.choose_in_place(instr, on_true, on_false, todo) {
                return Ok(None);
            }
            return Ok(Some(Way::Goes));
        }
        Instr::Br(n) => {
            thread.go_to(*todo);
            Some(thread.branch(*n))
        }
        Instr::BrIf(n) => {
            thread.go_to(*todo);
            Some(thread.branch_if_in_place(*n))
        }
        Instr::BrTable(labels, default) => {
            thread.go_to(*todo);
            Some(thread.branch_table_in_place(labels, *default))
        }
        Instr::Return => {
            thread.go_to(*todo);
            Some(thread.return_out())
        }
        Instr::CallFunc(index) => {
            if is_imported(module, *index) {
                return Ok(None);
            }
            thread.go_to(*todo);
            done_if(call_in_place(thread, module, *index))
        }
        Instr::CallIndirect(type_index) => {
            thread.go_to(*todo);
            done_if(call_indirect_in_place(thread, module, store, *type_index))
        }
        _ => return Ok(None),
    };
    *todo = thread.todo();
    Ok(way)
}

// A local of the frame, which has it.
#[inline(always)]
fn local_get(thread: &mut Stack<'_>, x: usize) -> bool
    requires within { ThreadWithin thread.old }
    requires has { x < length thread.old.locals }
    ensures goes { IsTrue result → Goes thread.new ≡ local_get x thread.old }
    ensures within { ThreadWithin thread.new }
    ensures same { result ≡ false → thread.new ≡ thread.old }
{
    let v = thread.local_at(x);
    thread.push_within(v)
}

// A local of the frame is set, which has it and an operand.
#[tactic(auto, using(crate::proofs::RuledThreads::set_after_tee, crate::proofs::Accesses::within_without))]
#[inline(always)]
fn local_set(thread: &mut Stack<'_>, x: usize)
    requires has { x < length thread.old.locals }
    requires some { 1 ≤ length thread.old.stack }
    ensures goes { Goes thread.new ≡ local_set x thread.old }
    ensures within { ThreadWithin thread.old → ThreadWithin thread.new }
{
    local_tee(thread, x);
    thread.drop_one();
}

// The same, and the operand stays.
#[tactic(auto, using(crate::proofs::RuledThreads::teed))]
#[inline(always)]
fn local_tee(thread: &mut Stack<'_>, x: usize)
    requires has { x < length thread.old.locals }
    requires some { 1 ≤ length thread.old.stack }
    ensures goes { Goes thread.new ≡ local_tee x thread.old }
    ensures within { ThreadWithin thread.old → ThreadWithin thread.new }
    ensures stack { thread.new.stack ≡ thread.old.stack }
{
    let v = thread.last();
    thread.put_local(x, v);
}

// Going, where it was done in place.
#[inline(always)]
fn done_if(goes: bool) -> Option<Way>
    ensures { result ≡ (if goes then Some Way.Goes else None) }
{
    if goes { Some(Way::Goes) } else { None }
}
