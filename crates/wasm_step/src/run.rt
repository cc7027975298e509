// A burst of a thread.
ghost use Rattle.std.specs.Prelude.{◌≡◌, ℕ, suc, IfOk, OnOk};
ghost use Rattle.wasm_types.specs.Modules.{module_of};
ghost use Rattle.wasm_stack.specs.Answer.{after_of};
ghost use Rattle.wasm_step.specs.inside.Paused.{halt_of, stopped_of, settled_of, stopped_result};
ghost use Rattle.wasm_step.specs.Burst.{after_step, burst, settle, spent_burst, most_instructions};
ghost use Rattle.wasm_step.specs.inside.Rules.{RunsByRules};
ghost use Rattle.wasm_stack.specs.Limits.{ThreadWithin};

use crate::calls::library_call;
use crate::in_place::try_in_place;
use crate::step::step;
use guest_module::ValidModule;
use std::alloc::AllocError;
use wasm_stack::{CallSite, Next, Stack, Way};
use wasm_store::Store;
use wasm_types::{Instr, Trap};

/// How a burst of a thread stops. A call of the library has taken its arguments.
#[derive(Clone, Copy, Drop)]
pub enum Stopped {
    Calling(CallSite),
    Ended,
    Trapped(Trap),
    Stuck,
}

// A burst has at most so many instructions.
const MOST_INSTRUCTIONS: u32 = 10_000_000;

/// Past the ends of levels and frames, to the next instruction.
#[inline(never)]
fn settle(thread: &mut Stack<'_>) -> Next
    ensures { settled_of (after_of result thread.new) ≡ settle thread.old }
{
    'ends: loop {
        if !thread.is_at_end() {
            return Next::Going;
        }
        match thread.end() {
            Way::Goes => {}
            way => return way.next(),
        }
    }
}

/// The end of a burst whose instructions are spent.
fn spend(thread: &mut Stack<'_>) -> Next
    ensures { halt_of (after_of result thread.new) ≡ spent_burst (settle thread.old) }
{
    match settle(thread) {
        Next::Going => match thread.fetch() {
            Some(_) => Next::Trapped(Trap::Spent),
            None => Next::Stuck,
        },
        halted => halted,
    }
}

/// The first instruction of a burst, after which the thread is within its limits.
fn first_step<'m>(
    thread: &mut Stack<'m>,
    module: &'m ValidModule,
    store: &mut Store<'m>,
) -> Result<Next, AllocError>
    requires same_module { module_of «module».now ≡ store.old.«module» }
    ensures ran { IfOk result (λ n. (k : ℕ) → after_step (after_of n thread.new) store.new (burst k) ≡ burst (suc k) thread.old store.old) }
    ensures within { IfOk result (λ n. n ≡ Next.Going → ThreadWithin thread.new) }
    ensures same_module { OnOk result (store.new.«module» ≡ store.old.«module») }
{
    match settle(thread) {
        Next::Going => {}
        halted => return Ok(halted),
    }
    let Some(instr) = thread.fetch() else {
        return Ok(Next::Stuck);
    };
    let next = step(thread, module, store, instr)?;
    Ok(next)
}

/// A burst, at whose stop a call of the library has its arguments among the operands.
#[inline(never)]
fn burst<'m>(
    thread: &mut Stack<'m>,
    module: &'m ValidModule,
    store: &mut Store<'m>,
) -> Result<Next, AllocError>
    requires same_module { module_of «module».now ≡ store.old.«module» }
    requires never_sticks { RunsByRules thread.old store.old }
    ensures { IfOk result (λ n. record { stop = halt_of (after_of n thread.new); store = store.new } ≡ burst most_instructions thread.old store.old) }
{
    let mut left = MOST_INSTRUCTIONS;
    if !thread.is_within() {
        match first_step(thread, module, store)? {
            Next::Going => {}
            halted => return Ok(halted),
        }
        left -= 1;
    }
    let mut todo = thread.todo();
    'steps: while left > 0 {
        let [instr, rest @ ..] = todo else {
            if thread.close() {
                todo = thread.todo();
                continue 'steps;
            }
            match thread.return_from() {
                Way::Goes => {
                    todo = thread.todo();
                    continue 'steps;
                }
                way => return Ok(way.next()),
            }
        };
        todo = rest;
        left -= 1;
        if let Some(way) = try_in_place(thread, module, store, instr, &mut todo)? {
            match way {
                Way::Goes => continue 'steps,
                way => return Ok(way.next()),
            }
        }
        thread.go_to(todo);
        if let Some(halted) = library_call(module, instr) {
            return Ok(halted);
        }
        match step(thread, module, store, instr)? {
            Next::Going => {}
            halted => return Ok(halted),
        }
        todo = thread.todo();
    }
    thread.go_to(todo);
    Ok(spend(thread))
}

// A call of the library takes its arguments.
fn stop_of(thread: &mut Stack<'_>, halted: Next) -> Stopped
    ensures { stopped_of result thread.new ≡ halt_of (after_of halted thread.old) }
{
    match halted {
        Next::Calling(func, n) => match thread.take_site(func, n) {
            Some(site) => Stopped::Calling(site),
            None => Stopped::Stuck,
        },
        Next::Ended => Stopped::Ended,
        Next::Trapped(trap) => Stopped::Trapped(trap),
        Next::Going | Next::Stuck => Stopped::Stuck,
    }
}

/// A burst: instructions until a call of the library, the thread's end or a trap.
pub(crate) fn run<'m>(
    thread: &mut Stack<'m>,
    module: &'m ValidModule,
    store: &mut Store<'m>,
) -> Result<Stopped, AllocError>
    requires same_module { module_of «module».now ≡ store.old.«module» }
    requires never_sticks { RunsByRules thread.old store.old }
    ensures { IfOk result (λ stopped. stopped_result stopped thread.new store.new ≡ burst most_instructions thread.old store.old) }
{
    let halted = burst(thread, module, store)?;
    Ok(stop_of(thread, halted))
}
