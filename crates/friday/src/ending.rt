// How the program ends.
ghost use Rattle.std.specs.Prelude.{◌≡◌, false, true};
ghost use Rattle.command_run.specs.Call.{IsAnswerStatus};
ghost use Rattle.command_run.specs.Numbers.{status_number};

use fri_outside::Closed;
use friday_app::Status;
use std::marker::Model;

/// The status of a call whose files were closed after it. Nothing else makes one, and the program ends with its number.
pub(crate) struct Ending {
    status: Status,
}

impl Model for Ending {
    ghost use Rattle.command_run.specs.declared.status.Status.{Status};

    ghost Value = { Status };

    ghost view = { λ ending. ending.status };
}

impl Ending {
    /// A file that cannot be closed may lack bytes that were written to it, which is a write fault if nothing failed before.
    pub(crate) fn new(status: Status, closed: Closed) -> Ending
        ensures whole { closed ≡ false → result ≡ status }
        ensures lost { closed ≡ true → IsAnswerStatus status → result ≡ Status.WriteFault }
        ensures first { ¬ IsAnswerStatus status → result ≡ status }
    {
        let is_lost = closed.is_lost();
        let status = match status {
            Status::ReadFault | Status::WriteFault | Status::NoMemory => status,
            _ if is_lost => Status::WriteFault,
            _ => status,
        };
        Ending { status }
    }

    /// The number with which the program ends.
    pub(crate) fn number(self) -> u8
        ensures { result ≡ status_number self }
    {
        let Ending { status } = self;
        status.number()
    }
}
