//! WebAssembly 1.0's modules, instructions, values and traps: the types that the other crates share.
//!
//! Contracts see a `Module` as `module_of` it (`specs/Modules`), and its code as trees of instructions (`specs/Code`), the one
//! form that all definitions speak of. `specs/Accesses` and `specs/Numeric` are the table of the opcodes; `specs/Typing` and
//! `specs/Rules` say what is well typed. What a module has is looked up here and nowhere else, as the types of its functions
//! (`specs/Functions`). A `Slot` is a value as it is copied, in two words.
#![tactic(auto)]

mod accesses;
mod code;
mod declared;
mod functions;
mod modules;
mod operators;
mod slot;
mod traps;

pub use accesses::{Access, load_access, store_access};
pub use code::{Instr, ValType, Value};
pub use declared::{Declared, MOST_THREAD_SIZE, zero_of};
pub use functions::{imported_type, is_same_type, result_of, type_at, type_of};
pub use modules::{
    Elem, Export, ExportDesc, Func, FuncType, GlobalDef, Import, ImportDesc, Limits, Module,
    Segment,
};
pub use operators::{Operator, operator_of};
pub use slot::Slot;
pub use traps::Trap;
