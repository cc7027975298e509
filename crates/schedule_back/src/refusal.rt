// Why there is no schedule of the logs of a group.
ghost use Rattle.std.specs.Prelude.{◌≡◌};
ghost use Rattle.schedule_back.specs.declared.refusal.BackError.TheVariants as error;

use std::alloc::AllocError;

/// Why there is no schedule of the logs of a group.
#[derive(Clone, Copy)]
pub enum BackError {
    /// The log of this process, the first such, has an entry that is not legal, or bytes after its entries.
    NotWhole(u32),
    /// The file of the module of this process, the first such, has a name that no schedule may have.
    BadModuleName(u32),
    /// There are more events than a schedule may try.
    TooManyEvents,
    /// The text is longer than a schedule may be.
    TooLong,
    NoMemory,
}

impl From<AllocError> for BackError {
    ghost from_gives = { λ _ e. e ≡ error.NoMemory };

    fn from(_: AllocError) -> Self {
        BackError::NoMemory
    }
}
