// `play SCHEDULE`: a recording that is made line by line, without files.
ghost use Rattle.std.specs.Prelude.{◌≡◌};
ghost use Rattle.command_run.specs.Run.{outside};
ghost use Rattle.play_command.specs.Run.{PlayRun};

use crate::live_play::Playing;
use command_run::{Status, finish};
use conversation::converse;
use fri_outside::{Files, Terminal};
use record_command::{gather, refusal_of};
use std::alloc::Global;

/// Reads the schedule and its modules, does its items, and answers the lines of the input.
pub fn play<F: Files, T: Terminal>(
    alloc: Global,
    schedule_file: &str,
    files: &mut F,
    io: &mut T,
) -> Status
    ensures { PlayRun schedule_file.now
        (outside (F.told files.old) (F.counts files.old) (T.hearing io.old) (T.taken io.old) (T.faults io.old))
        (outside (F.told files.new) (F.counts files.new) (T.hearing io.new) (T.taken io.new) (T.faults io.new))
        result }
{
    let inputs = match gather(alloc, schedule_file, files) {
        Ok(inputs) => inputs,
        Err(stop) => return finish(alloc, Err(stop), io),
    };
    match Playing::begin(alloc, &inputs.schedule, &inputs.modules) {
        Ok((playing, opening)) => converse(alloc, playing, opening, io),
        Err(error) => {
            let stop = refusal_of(alloc, schedule_file, &inputs.schedule, error);
            finish(alloc, Err(stop), io)
        }
    }
}
