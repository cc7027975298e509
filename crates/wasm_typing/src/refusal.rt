// Why a check ends early.
ghost use Rattle.std.specs.Prelude.{◌≡◌};
ghost use Rattle.wasm_typing.specs.declared.refusal.TypingError.TheVariants.{OutOfMemory};

use std::alloc::{AllocError, AllocFailed};

/// Why a check ends early.
#[derive(Clone, Copy, Drop)]
pub enum TypingError {
    /// What is checked breaks the rule.
    Invalid,
    OutOfMemory,
}

impl From<AllocError> for TypingError {
    ghost from_gives = { λ _ e. e ≡ OutOfMemory };

    fn from(_failed: AllocError) -> TypingError {
        TypingError::OutOfMemory
    }
}

impl<T: Drop> From<AllocFailed<T>> for TypingError {
    ghost from_gives = { λ _ e. e ≡ OutOfMemory };

    fn from(_failed: AllocFailed<T>) -> TypingError {
        TypingError::OutOfMemory
    }
}
