// Why a module is refused.
ghost use Rattle.std.specs.Prelude.{◌≡◌};
ghost use Rattle.wasm_validate.specs.declared.invalid.Invalid.TheVariants.{NoMemory};

use std::alloc::AllocError;
use thiserror::Error;

/// Why a module is refused. Of several reasons the first is given, in this order.
#[derive(Clone, Copy, Debug, Drop, Error)]
pub enum Invalid {
    /// A float value type or an instruction on floats stands anywhere in the module.
    #[error("the module has floats")]
    HasFloat,
    /// An import is not a function of the library of exactly its type.
    #[error("the module imports what the library does not have")]
    BadImport,
    /// The module is not well typed (WebAssembly 1.0, chapter 3).
    #[error("the module is not well typed")]
    Untyped,
    /// The memory begins with more than 256 pages, the table with more than 65,536 elements, or a
    /// function has more than 4,096 parameters and locals.
    #[error("the module is over a limit")]
    OverLimit,
    /// No export `_start` names a function of the module itself with no parameters and no result, or
    /// the start section names an import.
    #[error("the module has no function to start")]
    NoStart,
    /// Memory ran out.
    #[error("memory ran out")]
    NoMemory,
}

impl From<AllocError> for Invalid {
    ghost from_gives = { λ _ e. e ≡ NoMemory };

    fn from(_failed: AllocError) -> Invalid {
        Invalid::NoMemory
    }
}
