//! Threads of a WebAssembly 1.0 module as owned values, which run one burst at a time.
//!
//! Contracts see a `Strand` as its module, a thread (the stack of frames with their operands, locals and levels) and the call
//! of the library at which it is, if it does (`specs/Strand`). `run` takes it through a burst: at most 10,000,000
//! instructions, up to a call of the library, the end or a trap, and gives exactly what `burst` of `specs/Burst` computes, one
//! instruction after the other by `specs/Reduce`, or wants memory. `answer` gives the result of its call, and `push_handler`
//! puts a handler's frame on top. The law `never_stuck` says that a burst of a valid module always ends in one of these ways,
//! and what it does to the marks of the store.
//!
//! Inside, a thread is a `Stack` of wasm_stack, which does what needs no module and no store. A strand holds it behind a
//! box, as a process of guest_process holds its body: at an event pointers are moved, and not the stacks. A burst takes an
//! instruction off and does it in place if the thread is within its limits and a vector has room (`try_in_place`, one flat
//! match that becomes one table of jumps, as are loads, stores and numbers). A burst of a thread that fits never sticks
//! (`RunsByRules` of `specs/inside/Rules`), so what the rule of an instruction needs is not tested. If it cannot be done in place
//! nothing was done, and the full case follows (`step`), which may want memory and tests the limits.
//!
//! What is left to do in the innermost level is a variable of the burst, since most instructions take one off and do nothing
//! else with it (`proofs/BurstTodo`). It is put back into the stack before a branch, a return, a call and a full case, and
//! read again after it. A level that opens takes it along.
//!
//! A call of an own function is made in place too (`call_in_place`, and through the table `call_indirect_in_place`), in a
//! function apart, so that the burst keeps its registers: all its tests come first, and the frame wants no memory. What a call
//! looks up is kept with the module (`Called` of guest_module), as is what locals start as, which is copied.
#![tactic(auto)]

mod calls;
mod first;
mod in_place;
pub mod laws;
mod memory;
mod numbers;
mod run;
mod step;
mod strand;

pub use strand::{Pause, Strand};
pub use wasm_stack::CallSite;
pub use wasm_store::{StartError, Store};
