// A thread as its owner has it.
ghost use Rattle.std.specs.Prelude.{◌≡◌, ℕ, IfOk, None, OnOk, Some, true};
ghost use Rattle.wasm_types.specs.Modules.{module_of};
ghost use Rattle.wasm_step.specs.Burst.{burst, most_instructions};
ghost use Rattle.wasm_store.specs.Suits.{SuitsModule};
ghost use Rattle.wasm_stack.specs.Thread.{functions_of};
ghost use Rattle.wasm_step.specs.Pause.{StandsAt, pause_result};
ghost use Rattle.wasm_step.specs.Strand.{IsAnswer, IsHandler, answered_strand, thread_in_handler, first_thread, is_in, new_thread};

use crate::calls::{can_handle, handle};
use crate::first::{first, own};
use crate::run::{Stopped, run};
use guest_module::ValidModule;
use std::alloc::{AllocError, Global};
use std::marker::Model;
use wasm_stack::{CallSite, Stack};
use wasm_store::Store;
use wasm_types::{Slot, Trap, Value};

/// A thread of a module, with its whole stack.
pub struct Strand<'m> {
    module: &'m ValidModule,
    stack: Box<Stack<'m>>,
    call: Option<u32>,
}

// By hand, so that it is proved here, and not in each crate that owns one.
impl Drop for Strand<'_> {
    fn drop(self) {
        let Self {
            module: _module,
            stack: _stack,
            call: _call,
        } = self;
    }
}

impl<'m> Model for Strand<'m> {
    ghost use Rattle.std.specs.Coded.{codes};
    ghost use Rattle.wasm_types.specs.Coding.{trees_code};
    ghost use Rattle.wasm_step.specs.Strand.{Strand};

    ghost Value = { Strand };

    ghost coded = { Prim.hlevel (codes, trees_code) };

    ghost use Rattle.wasm_types.specs.Modules.{module_of};
    ghost use Rattle.wasm_step.specs.inside.Standing.{StandsFit};

    ghost view = { λ s. record { «module» = module_of s.«module».now; thread = s.stack.value; call = s.call } };

    ghost invariant = { λ s. StandsFit (module_of s.«module».now) s.stack.value s.call };
}

/// Where a burst of a thread pauses.
#[derive(Drop)]
pub enum Pause<'m> {
    /// The thread is at a call of the library.
    AtCall(Strand<'m>, CallSite),
    /// The thread has ended.
    Ended,
    /// The thread has trapped. These are the functions of its frames as they were before the instruction that trapped, the
    /// innermost first.
    Trapped(Trap, Vec<u32>),
}

impl<'m> Strand<'m> {
    /// The thread that runs first: at the start of the module's `_start`, with the function of its start
    /// section above it where there is one.
    pub fn first(alloc: Global, module: &'m ValidModule) -> Result<Strand<'m>, AllocError>
        ensures same_module { IfOk result (λ s. s.«module» ≡ module_of «module».now) }
        ensures thread { IfOk result (λ s. first_thread (module_of «module».now) ≡ Some s.thread) }
        ensures call { IfOk result (λ s. s.call ≡ None) }
    {
        let thread = first(alloc, module)?;
        let stack = Box::new(alloc, thread)?;
        Ok(Strand {
            module,
            stack,
            call: None,
        })
    }

    /// A thread at the start of this function, with this argument.
    pub fn new(
        alloc: Global,
        module: &'m ValidModule,
        func: u32,
        arg: u32,
    ) -> Result<Strand<'m>, AllocError>
        requires { IsHandler (module_of «module».now) func }
        ensures same_module { IfOk result (λ s. s.«module» ≡ module_of «module».now) }
        ensures thread { IfOk result (λ s. new_thread (module_of «module».now) func arg ≡ Some s.thread) }
        ensures call { IfOk result (λ s. s.call ≡ None) }
    {
        let arguments = vec![in alloc; Slot::of(Value::I32(arg))]?;
        let callee = own(module, func);
        let thread = Stack::start(func, callee, arguments, None)?;
        let stack = Box::new(alloc, thread)?;
        Ok(Strand {
            module,
            stack,
            call: None,
        })
    }

    /// The thread after its call of the library, which gave this value.
    pub fn answer(self, value: Option<Value>) -> Result<Strand<'m>, AllocError>
        requires { IsAnswer self value }
        ensures { IfOk result (λ s. s ≡ answered_strand self.entry value) }
    {
        let Strand {
            module,
            mut stack,
            call: _,
        } = self;
        stack.give(value)?;
        Ok(Strand {
            module,
            stack,
            call: None,
        })
    }

    /// Whether a frame of this function, which handles a signal, keeps to the thread's limits.
    pub fn has_handler_room(&self, func: u32) -> bool
        requires { IsHandler self.now.«module» func }
        ensures { (signal : ℕ) → result ≡ is_in (thread_in_handler self.now.«module» self.now.thread func signal) }
    {
        let callee = own(self.module, func);
        can_handle(&self.stack, callee.declared())
    }

    /// The thread with the frame of this function on top, which handles the signal.
    pub fn push_handler(self, func: u32, signal: u32) -> Result<Strand<'m>, AllocError>
        requires handler { IsHandler self.«module» func }
        requires runs { self.call ≡ None }
        requires room { is_in (thread_in_handler self.«module» self.thread func signal) ≡ true }
        ensures same_module { IfOk result (λ s. s.«module» ≡ self.entry.«module») }
        ensures thread { IfOk result (λ s. thread_in_handler self.entry.«module» self.entry.thread func signal ≡ Some s.thread) }
        ensures call { IfOk result (λ s. s.call ≡ None) }
    {
        let callee = own(self.module, func);
        let Strand {
            module,
            mut stack,
            call: _,
        } = self;
        handle(&mut stack, func, callee, signal)?;
        Ok(Strand {
            module,
            stack,
            call: None,
        })
    }

    /// A burst: at most 10,000,000 instructions until a call of the library, the thread's end or a trap.
    pub fn run(self, store: &mut Store<'m>) -> Result<Pause<'m>, AllocError>
        requires runs { self.call ≡ None }
        requires same_module { self.«module» ≡ store.old.«module» }
        requires suits { SuitsModule store.old }
        ensures ran { IfOk result (λ p. pause_result p store.new ≡ burst most_instructions self.entry.thread store.old) }
        ensures call { IfOk result (λ p. StandsAt self.entry.«module» p) }
        ensures suits { OnOk result (SuitsModule store.new) }
        ensures same_module { OnOk result (store.new.«module» ≡ self.entry.«module») }
    {
        let Strand {
            module,
            mut stack,
            call: _,
        } = self;
        // Its `ensures` tells the proof that the module is valid.
        let _ = module.module();
        guest_module::laws::types_agree();
        match run(&mut stack, module, store)? {
            Stopped::Calling(site) => {
                let strand = Strand {
                    module,
                    stack,
                    call: Some(site.func),
                };
                Ok(Pause::AtCall(strand, site))
            }
            Stopped::Ended => Ok(Pause::Ended),
            Stopped::Trapped(trap) => Ok(Pause::Trapped(trap, stack.functions()?)),
            Stopped::Stuck => unreachable!(),
        }
    }

    /// The functions of the thread's frames, the innermost first.
    pub fn functions(&self) -> Result<Vec<u32>, AllocError>
        ensures { IfOk result (λ functions. functions.items ≡ functions_of self.now.thread) }
    {
        self.stack.functions()
    }

    /// An equal thread.
    pub fn copy(&self) -> Result<Strand<'m>, AllocError>
        ensures { IfOk result (λ s. s ≡ self.now) }
    {
        let alloc = *Box::allocator(&self.stack);
        let stack = Box::new(alloc, self.stack.copy()?)?;
        Ok(Strand {
            module: self.module,
            stack,
            call: self.call,
        })
    }
}
