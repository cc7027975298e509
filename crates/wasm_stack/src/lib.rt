//! A thread of a WebAssembly 1.0 module as stacks that lie end to end, and the instructions that need no module and no store.
//!
//! Contracts see a `Stack` as a `Thread` (`specs/Thread`: the innermost level of its innermost frame, the levels around it, and
//! the frames that wait). Each call does exactly what its clause says: one instruction on numbers, operands and locals by
//! `specs/Rows`, a branch, a choice or an end by `specs/Control`, or one step of a call or of a level. What comes after it is a
//! `Next` or a `Way`, which `specs/Answer` reads as a case of `specs/After`. Besides, only want of memory may come. What is done
//! in place takes a thread within its limits (`specs/Limits`), leaves it within them, and does either all or nothing.
//!
//! Inside, the operands, locals and levels of all frames lie one after the other, and a frame knows where its own begin
//! (`specs/View` says what thread they stand for), so that most instructions are done without a call that could want memory.
//! A level around another is the instruction that opened the other, the instructions after that, and the count of operands
//! below it. What a level leaves, where a branch to it goes on, whether that carries an operand, and whether it loops is
//! read from the opener (`opened_by` of `specs/View`, `innermost_opened` of `specs/inside/Stacks`). A value is a `Slot` of
//! wasm_types: two words that are copied together, which contracts see as the value. `room` of a stack is a count of
//! operands below which one more wants no memory and keeps the limit, so a push in place is one test. Ends, branches and
//! returns give no more than they take (`proofs/EndsWithinLimits`), so they test no limit, and what they carry has its place
//! where it was: they cannot want memory, as their types say (`Way`). `specs/Target` is inside too.
#![tactic(auto)]

mod call;
mod control;
mod halt;
mod levels;
mod rows;
mod rows_in_place;
mod stack;

pub use call::CallSite;
pub use halt::{Next, Way, unless_stuck};
pub use stack::Stack;
