// A call of a program that is killed between two calls of its files.
ghost use Rattle.std.specs.Prelude.{map, string_bytes};
ghost use Rattle.friday_app.specs.Command.{command_of};
ghost use Rattle.friday_app.specs.Stopped.{IsLeftAtMoment};

use crate::top::friday;
use command_run::Status;
use fri_outside::{Files, StoppedFiles, Terminal};
use std::alloc::Global;

/// Makes the call of these words, but only so many calls on the files. So these are left as they stand if the program is
/// killed then, between two calls: after a recording, at a moment of its run.
pub fn friday_stopped<F: Files + Drop, T: Terminal>(
    alloc: Global,
    words: &[String],
    calls: u64,
    files: F,
    io: &mut T,
) -> (F, Status)
    ensures left { IsLeftAtMoment (command_of (map string_bytes words.now)) (F.told files) (F.told result.0) result.1 }
{
    let mut stopped = StoppedFiles::new(files, calls);
    let status = friday(alloc, words, &mut stopped, io);
    (stopped.into_files(), status)
}
