// Why a line or an expression is refused.
ghost use Rattle.std.specs.Prelude.{◌≡◌};
ghost use Rattle.expression_text.specs.declared.error.ExprError.TheVariants.{NoMemory};

use std::alloc::{AllocError, AllocFailed};
use thiserror::Error;

/// Why a line or an expression is refused.
#[derive(Clone, Copy, Debug, Error)]
pub enum ExprError {
    /// The byte or the token at this column, counted from 1, can't be there.
    #[error("syntax at column {0}")]
    Syntax(u32),
    /// A name is that of no node, or `@_` is outside an aggregate.
    #[error("no such node")]
    NoNode,
    /// There are too many tokens, or too many brackets are open at once.
    #[error("too deep")]
    TooDeep,
    /// An aggregate is in an aggregate.
    #[error("an aggregate in an aggregate")]
    Nested,
    /// There is no memory for what was read.
    #[error("out of memory")]
    NoMemory,
}

impl From<AllocError> for ExprError {
    ghost from_gives = { λ _ e. e ≡ NoMemory };

    fn from(_e: AllocError) -> ExprError {
        ExprError::NoMemory
    }
}

impl<T: Drop> From<AllocFailed<T>> for ExprError {
    ghost from_gives = { λ _ e. e ≡ NoMemory };

    fn from(_e: AllocFailed<T>) -> ExprError {
        ExprError::NoMemory
    }
}
