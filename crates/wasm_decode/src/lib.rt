//! The binary format of WebAssembly 1.0: the module that bytes spell.
//!
//! `specs/Grammar` says which bytes spell which value, a case for each production of the standard's chapter 5, floats
//! included. `decode` gives the module that the bytes spell, and is `Malformed` exactly where they spell none, unless memory
//! runs out; blocks may nest 1,000 deep. The law `one_module` says that bytes spell at most one module, and
//! `module_is_spelled` that `module_of_bytes` of `specs/Sections`, which computes, finds it. Whether a module is valid is not
//! asked here. Inside, the readers follow the definitions that compute, from the front of the bytes on (`specs/inside/Decoding`).
#![tactic(auto)]

ghost use Rattle.std.specs.Prelude.{◌≡◌, Some, None, IfOk, IsErrOf, MatchResult};
ghost use Rattle.wasm_types.specs.Modules.{module_of, Module as Shown};
ghost use Rattle.wasm_decode.specs.inside.Decoding.{DecodesAll};
ghost use Rattle.wasm_decode.specs.Grammar.{SpellsModule};
ghost use Rattle.wasm_decode.specs.Sections.{module_of_bytes};

mod entries;
mod error;
mod functions;
mod instructions;
pub mod laws;
mod numbers;
mod sections;
mod types;
mod vectors;

use entries::{ElemEntry, ExportEntry, GlobalEntry, ImportEntry, SegmentEntry};
pub use error::DecodeError;
use fri_bytes::Cursor;
use numbers::end;
use sections::{code_section, customs, header, section, start_section};
use std::alloc::Global;
use types::{FuncTypeEntry, MemoryEntry, TableEntry};
use vectors::IndexEntry;
use wasm_types::Module;

/// The module that the bytes spell, by the binary format of WebAssembly 1.0 (its chapter 5), floats
/// included. `Malformed` comes where they spell none. Blocks may nest 1,000 deep, and more of them are
/// Malformed, as is all that came after version 1.0.
pub fn decode(alloc: Global, bytes: &[u8]) -> Result<Module, DecodeError>
    // What is decoded is spelled so.
    ensures found { IfOk result (λ m. SpellsModule bytes.now (module_of m)) }

    // What is spelled so is decoded, unless memory runs out.
    ensures only { (m : Shown) → SpellsModule bytes.now m →
        MatchResult result (λ found. module_of found ≡ m) (λ e. e ≡ DecodeError.NoMemory) }

    // Malformed comes only where no module is spelled.
    ensures malformed { IsErrOf result DecodeError.Malformed → (m : Shown) → SpellsModule bytes.now m → ⊥ }

    // The same, in the words of the function that gives the module.
    ensures computed { MatchResult result
        (λ m. module_of_bytes bytes.now ≡ Some (module_of m))
        (λ e. e ≡ DecodeError.Malformed → module_of_bytes bytes.now ≡ None) }
{
    fri_bytes::laws::exact_readers();
    module(alloc, bytes)
}

/// The header, the sections in their order, and nothing more.
#[tactic(auto, unfolding(crate::specs::Sections::module_of_bytes))]
fn module(alloc: Global, bytes: &[u8]) -> Result<Module, DecodeError>
    ensures { DecodesAll module_of result (module_of_bytes bytes.now) }
{
    let mut cursor = Cursor::new(bytes);
    header(&mut cursor)?;
    let types = section::<FuncTypeEntry>(alloc, &mut cursor, 1)?;
    let imports = section::<ImportEntry>(alloc, &mut cursor, 2)?;
    let indices = section::<IndexEntry>(alloc, &mut cursor, 3)?;
    let tables = section::<TableEntry>(alloc, &mut cursor, 4)?;
    let mems = section::<MemoryEntry>(alloc, &mut cursor, 5)?;
    let globals = section::<GlobalEntry>(alloc, &mut cursor, 6)?;
    let exports = section::<ExportEntry>(alloc, &mut cursor, 7)?;
    let start = start_section(&mut cursor)?;
    let elems = section::<ElemEntry>(alloc, &mut cursor, 9)?;
    let funcs = code_section(alloc, &mut cursor, &indices)?;
    let segments = section::<SegmentEntry>(alloc, &mut cursor, 11)?;
    customs(&mut cursor)?;
    end(&cursor)?;
    if funcs.len() != indices.len() {
        return Err(DecodeError::Malformed);
    }
    Ok(Module {
        types,
        imports,
        funcs,
        tables,
        mems,
        globals,
        exports,
        start,
        elems,
        segments,
    })
}
