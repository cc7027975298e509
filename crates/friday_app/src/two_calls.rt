// Two calls: the second shows what the first recorded.
ghost use Rattle.std.specs.Prelude.{◌≢◌, IfErr, IfOk, map, string_bytes};
ghost use Rattle.command_run.specs.Run.{outside};
ghost use Rattle.friday_app.specs.Command.{command_of};
ghost use Rattle.friday_app.specs.TwoCalls.{ShowsRecorded};

use crate::top::friday;
use command_run::Status;
use fri_outside::{Files, Terminal};
use std::alloc::Global;

/// Makes a call with the first words, and where its work is done one with the second. Gives the second status, or that of
/// the first call where it is another than `Done`.
///
/// Where the first words record and the second replay or debug modules and logs of that recording, what is printed,
/// made and answered is what was recorded.
#[tactic(none)]
pub fn record_and_show<F: Files, T: Terminal>(
    alloc: Global,
    first: &[String],
    second: &[String],
    files: &mut F,
    io: &mut T,
) -> Result<Status, Status>
    ensures shown { IfOk result (λ answer. ShowsRecorded (command_of (map string_bytes first.now)) (command_of (map string_bytes second.now))
        (outside (F.told files.old) (F.counts files.old) (T.hearing io.old) (T.taken io.old) (T.faults io.old))
        (outside (F.told files.new) (F.counts files.new) (T.hearing io.new) (T.taken io.new) (T.faults io.new))
        answer) }

    // It is done exactly where the first call is
    ensures stopped { IfErr result (λ status. status ≢ Status.Done) }
{
    schedule_text::laws::exact_outcome();
    match friday(alloc, first, files, io) {
        Status::Done => Ok(friday(alloc, second, files, io)),
        status => Err(status),
    }
}
