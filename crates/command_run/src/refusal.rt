// The outcome of a command, before its text is written.
ghost use Rattle.std.specs.Prelude.{◌≡◌};
ghost use Rattle.command_run.specs.declared.refusal.StopCause.TheVariants as refusal;
ghost use Rattle.command_run.specs.Call.{write_refusal};

use fri_outside::WriteError;
use fri_text::Text;
use std::alloc::{AllocError, AllocFailed, Global};

/// Why a file is refused.
#[derive(Clone, Copy)]
pub enum Reason {
    TooLarge,
    BadLine(u64),
    TooMany,
    /// The next event of the item with this number, from 1, would carry a log past its limit.
    LogFull(u64),
    Malformed,
    HasFloat,
    BadImport,
    Untyped,
    OverLimit,
    NoStart,
    BadSegment,
    BadHead,
    /// The log is of a group of another number of processes than the first log.
    OtherGroup,
    /// An earlier log is of the same process.
    SameProcess,
    /// An earlier log is of a process of the same name.
    SameName,
    /// The log would pass its limit in the newer form.
    Grown,
    /// Not all logs of the group are given.
    Incomplete,
    /// The log has an entry that is not legal, or bytes after its entries.
    NotWhole,
    /// No schedule may name the module so.
    BadModuleName,
    /// The logs have more events than a schedule may try.
    TooManyEvents,
    /// The schedule would pass its limit.
    TooLong,
    /// No given log is of the process.
    NoProcess,
    /// The log has fewer accepted events.
    NoEvent,
    /// A file that was read would be made.
    OverInput,
}

/// What a command prints at the end of its work, at which a log may have diverged.
#[derive(Drop)]
pub enum WorkText {
    Done(Text),
    Diverged(Text),
}

/// Why a command does not reach its end. A file's name is kept, since it may come from another file.
#[derive(Drop)]
pub enum StopCause {
    Refused(String, Reason),
    Absent(String),
    ReadFault,
    WriteFault,
    NoMemory,
}

impl StopCause {
    ghost use Rattle.command_run.specs.Call.{NamesAbsent, RefusesFile};

    /// The refusal of a file, or want of memory for its name.
    pub fn refuse(alloc: Global, file: &str, reason: Reason) -> StopCause
        ensures { RefusesFile file.now reason result }
    {
        match String::from_str(alloc, file) {
            Ok(file) => StopCause::Refused(file, reason),
            Err(_) => StopCause::NoMemory,
        }
    }

    /// That a file is absent, or want of memory for its name.
    pub fn absent(alloc: Global, file: &str) -> StopCause
        ensures { NamesAbsent file.now result }
    {
        match String::from_str(alloc, file) {
            Ok(file) => StopCause::Absent(file),
            Err(_) => StopCause::NoMemory,
        }
    }
}

impl From<AllocError> for StopCause {
    ghost from_gives = { λ _ e. e ≡ refusal.NoMemory };

    fn from(_: AllocError) -> Self {
        StopCause::NoMemory
    }
}

impl<T: Drop> From<AllocFailed<T>> for StopCause {
    ghost from_gives = { λ _ e. e ≡ refusal.NoMemory };

    fn from(_: AllocFailed<T>) -> Self {
        StopCause::NoMemory
    }
}

impl From<WriteError> for StopCause {
    ghost from_gives = { λ error e. e ≡ write_refusal error };

    fn from(error: WriteError) -> Self {
        match error {
            WriteError::Failed => StopCause::WriteFault,
            WriteError::NoMemory => StopCause::NoMemory,
        }
    }
}
