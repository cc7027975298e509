// Why bytes give no schedule.
ghost use Rattle.std.specs.Prelude.{◌≡◌};
ghost use Rattle.schedule_text.specs.declared.error.ScheduleError.TheVariants.{NoMemory};

use std::alloc::{AllocError, AllocFailed};
use thiserror::Error;

/// Why no schedule was read.
#[derive(Clone, Copy, Debug, Error)]
pub enum ScheduleError {
    /// The line with this number, counted from 1, is the first that isn't allowed at its place. Where
    /// the header or a process line is still to come at the end, it is the line after the last.
    #[error("line {0} is not allowed here")]
    BadLine(u64),
    /// Each line is allowed, but the run items, repeats counted, are more than `MOST_RUNS`.
    #[error("too many run items")]
    TooMany,
    /// There is no memory for the schedule.
    #[error("out of memory")]
    NoMemory,
}

impl From<AllocError> for ScheduleError {
    ghost from_gives = { λ _ e. e ≡ NoMemory };

    fn from(_e: AllocError) -> ScheduleError {
        ScheduleError::NoMemory
    }
}
