//! Whether the code of a function is well typed (WebAssembly 1.0, section 3.3).
//!
//! `check_body` accepts the body of a function exactly where the rules of `specs/Typing` of `wasm_types` hold of its tree, and
//! refuses it exactly where they do not, unless memory runs out (`JudgesCode` of `specs/Steps`). Contracts see a `Context` as what
//! the code may name of its module, and `Locals` as the list of the types of parameters and locals, which is never written
//! out, since a few bytes may declare billions. Inside, the stacks of the open blocks lie in one list of operands
//! (`specs/inside/Operands`), and each step of the check follows the rule's step. The check recurs as deep as blocks nest.
//! `specs/inside/Locals` and `specs/inside/Views` are inside too.
#![tactic(auto)]

mod accesses;
mod bodies;
mod calls;
mod context;
mod labels;
mod locals;
mod operands;
mod refusal;
mod steps;

pub use bodies::check_body;
pub use context::Context;
pub use locals::Locals;
pub use refusal::TypingError;
