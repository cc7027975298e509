// Why there is no cut.
ghost use Rattle.std.specs.Prelude.{◌≡◌};
ghost use Rattle.causal_cut.specs.declared.refusal.CutError.TheVariants as error;

use std::alloc::AllocError;

/// Why there is no cut.
#[derive(Clone, Copy)]
pub enum CutError {
    /// The node has fewer accepted events.
    NoEvent,
    NoMemory,
}

impl From<AllocError> for CutError {
    ghost from_gives = { λ _ e. e ≡ error.NoMemory };

    fn from(_: AllocError) -> Self {
        CutError::NoMemory
    }
}
