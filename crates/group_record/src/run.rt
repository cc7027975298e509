// The recording of a schedule.
ghost use Rattle.std.specs.Prelude.{◌≡◌, length, map};
ghost use Rattle.wasm_types.specs.Modules.{module_of};
ghost use Rattle.group_record.specs.Answer.{RecordAnswers, after_writes, first_states};
ghost use Rattle.group_record.specs.Files.{change};

use crate::begin::begin;
use crate::error::RecordError;
use crate::images::write_images;
use crate::summary::{Summary, summary_of};
use fri_outside::Files;
use guest_module::SharedModule;
use schedule_text::Schedule;
use std::alloc::Global;

/// Records the group of a schedule, whose processes are of these modules, one for each. All processes
/// begin; then the logs are made and their heads written, each in order of the processes; then each
/// event's entry is appended to its log before the next event is tried. With `images`, the two files of each
/// process's image are made after the whole run, in the same order. After a call on the files that failed none
/// is made. `RecordAnswers` says how the files stand at each answer.
pub fn run_record<F: Files>(
    alloc: Global,
    schedule: &Schedule,
    modules: &[SharedModule],
    files: &mut F,
    images: bool,
) -> Result<Summary, RecordError>
    requires { length modules.now ≡ length schedule.now.processes }
    ensures answers { RecordAnswers schedule.now images (first_states schedule.now (map module_of modules.now)) result (change (F.told files.old) (F.told files.new)) }
    ensures counted { F.counts files.new ≡ after_writes (F.counts files.old) result }
{
    group_world::laws::by_counting();
    let mut recorder = begin(alloc, schedule, modules, images, files)?;
    recorder.perform_all(alloc, schedule.items(), files)?;
    let summary = summary_of(alloc, schedule.processes(), &recorder)?;
    write_images(alloc, images, schedule.processes(), &recorder, files)?;
    Ok(summary)
}
