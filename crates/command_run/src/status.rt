// How a call ends.
ghost use Rattle.std.specs.Prelude.{◌≡◌};
ghost use Rattle.command_run.specs.Numbers.{status_number};

/// How a call ends. The binary ends with the number of the variant, from 0.
#[derive(Clone, Copy, Debug)]
pub enum Status {
    Done,
    Diverged,
    Usage,
    Refused,
    Absent,
    ReadFault,
    WriteFault,
    NoMemory,
}

impl Status {
    /// The number with which a program ends.
    pub fn number(self) -> u8
        ensures { result ≡ status_number self }
    {
        match self {
            Status::Done => 0,
            Status::Diverged => 1,
            Status::Usage => 2,
            Status::Refused => 3,
            Status::Absent => 4,
            Status::ReadFault => 5,
            Status::WriteFault => 6,
            Status::NoMemory => 7,
        }
    }
}
