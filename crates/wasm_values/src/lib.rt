//! The values of a WebAssembly 1.0 module, and what its numeric instructions, loads and stores make of them.
//!
//! An instruction is named by its opcode. `unary` and `binary` give its value, its trap, or nothing where no instruction has
//! the opcode and takes such operands (`specs/Numeric`, over the operators of `wasm_num`). `changed` and `combined` are the
//! same for the common cases, and may answer nothing for others. `load_value`, `load_width` and `store_width` say what a load
//! makes of the number that it reads, and how many bytes each names (`specs/Access`). All are exact against these definitions,
//! and none takes memory. Floats have no value here, since modules with floats are not run.
#![tactic(auto)]

mod access;
mod numeric;
mod values;

pub use access::{load_value, load_width, store_width};
pub use numeric::{Number, binary, changed, combined, is_unary, unary};
pub use values::bits;
