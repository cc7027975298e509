//! Which modules of WebAssembly 1.0 are valid (its chapter 3).
//!
//! `validate` gives the module back as a `ValidModule` exactly where `IsValid` of `wasm_types` holds of it, unless memory runs
//! out: its code and imports are typed, it has no floats, it imports calls of the library alone, it is within the limits, and
//! it has a start. Else it gives the first refusal that holds, in the order of `Invalid` (`IsFirst` of `specs/Refusals`). The
//! law `exact_fault` says that `fault` of `specs/Fault`, which computes, names the first refusal that holds, and none exactly
//! where the module is valid. Code is checked by `wasm_typing`. Inside are the tests of single parts (`specs/inside/Constants`,
//! `specs/inside/Neighbors`, `specs/inside/Signatures`).
#![tactic(auto)]

ghost use Rattle.std.specs.Prelude.{◌≡◌, IfErr, IfOk, MatchResult};
ghost use Rattle.wasm_types.specs.Modules.{module_of};
ghost use Rattle.guest_module.specs.Valid.{IsValid};
ghost use Rattle.wasm_validate.specs.Refusals.{IsFirst};

mod check;
mod constants;
mod exports;
mod floats;
mod functions;
mod imports;
mod invalid;
pub mod laws;
mod limits;
mod segments;
mod shape;
mod sizes;
mod start;

use check::check;
use guest_module::{ValidModule, claim};
pub use invalid::Invalid;
use std::alloc::Global;
use wasm_types::Module;

/// The module as one that is known to be valid, or the first refusal that holds.
pub fn validate(alloc: Global, module: Module) -> Result<ValidModule, Invalid>
    // The module comes back as it is, and only where it is valid.
    ensures same { IfOk result (λ v. v ≡ «module») }
    ensures valid { IfOk result (λ v. IsValid (module_of v)) }

    // A valid module is accepted, unless memory runs out.
    ensures complete { IsValid (module_of «module») →
        MatchResult result (λ v. v ≡ «module») (λ e. e ≡ Invalid.NoMemory) }

    // A refusal comes only where it is the first that holds, and then the module is not valid.
    ensures refused { IfErr result (λ e. IsFirst (module_of «module») e) }
{
    check(alloc, &module)?;
    Ok(claim(alloc, module)?)
}
