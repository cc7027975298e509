// A thread that was made.
ghost use Rattle.std.specs.Prelude.{◌≡◌, IfOk};
ghost use Rattle.coop_threads.specs.Crew.{status_of};

use crate::copy_out::CopyOut;
use crate::status::Status;
use std::alloc::AllocError;

// A thread whose value is kept here, one whose value was lent out, or one that is over.
#[derive(Drop)]
pub(crate) enum Slot<T> {
    Kept(T),
    Lent,
    Over,
}

impl<T: CopyOut> CopyOut for Slot<T> {
    fn copy_out(&self) -> Result<Slot<T>, AllocError> {
        match self {
            Slot::Kept(t) => Ok(Slot::Kept(t.copy_out()?)),
            Slot::Lent => Ok(Slot::Lent),
            Slot::Over => Ok(Slot::Over),
        }
    }
}
