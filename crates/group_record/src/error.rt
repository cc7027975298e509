// Why a group was not recorded whole.
ghost use Rattle.std.specs.Prelude.{◌≡◌};
ghost use Rattle.fri_outside.specs.declared.files.WriteError.{WriteError as WriteErrorOf};
ghost use Rattle.group_record.specs.declared.error.RecordError.TheVariants.{NoMemory};
ghost use Rattle.group_record.specs.Answer.{error_of};

use fri_outside::WriteError;
use std::alloc::{AllocError, AllocFailed};
use thiserror::Error;

/// Why a recording was not done, or not to its end.
#[derive(Clone, Copy, Debug, Error)]
pub enum RecordError {
    /// A segment of the module of the process with this number ends past its table or memory. No file
    /// has changed.
    #[error("a segment of process {0} ends past its table or memory")]
    BadSegment(u32),
    /// The next event of the item with this number, counted from 1, would carry a log past its limit.
    /// Each log holds what came before.
    #[error("item {0} would carry a log past its limit")]
    LogFull(u64),
    /// A log could not be written to.
    #[error("a log was not written")]
    WriteFault,
    /// There was no memory.
    #[error("out of memory")]
    NoMemory,
}

impl From<AllocError> for RecordError {
    ghost from_gives = { λ _ e. e ≡ NoMemory };

    fn from(_: AllocError) -> RecordError {
        RecordError::NoMemory
    }
}

impl<T: Drop> From<AllocFailed<T>> for RecordError {
    ghost from_gives = { λ _ e. e ≡ NoMemory };

    fn from(_: AllocFailed<T>) -> RecordError {
        RecordError::NoMemory
    }
}

impl From<WriteError> for RecordError {
    ghost from_gives = { λ error e. e ≡ error_of error };

    fn from(error: WriteError) -> RecordError {
        match error {
            WriteError::Failed => RecordError::WriteFault,
            WriteError::NoMemory => RecordError::NoMemory,
        }
    }
}
