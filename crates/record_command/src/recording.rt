// `record [--images] SCHEDULE`: runs a group as the schedule says, and writes the log of each
// process, and the images where they are asked for.
ghost use Rattle.std.specs.Prelude.{◌≡◌, false, length, map, option_map, IfErr, OnOk};
ghost use Rattle.fri_outside.specs.Outside.{WhenTold};
ghost use Rattle.wasm_types.specs.Modules.{module_of as shown};
ghost use Rattle.group_record.specs.Answer.{StoppedWhereBegun, first_states};
ghost use Rattle.command_run.specs.Asked.{AsksAll, AsksFirst};
ghost use Rattle.command_run.specs.Outcome.{writes_of};
ghost use Rattle.record_command.specs.Expected.{group_outcome, record_inputs, record_outcome};
ghost use Rattle.record_command.specs.Agreement.{LeavesMoment};
ghost use Rattle.command_run.specs.Call.{CountsFaults, TellsOutcome, MakesWorkFiles, KeepsFolder, DivergesOnlyIf, RaisesCount};

use crate::inputs::{gather, refusal_of};
use crate::names::keep_schedule;
use crate::summary::print_summary;
use command_run::{StopCause, WorkText};
use fri_outside::Files;
use group_record::run_record;
use guest_module::SharedModule;
use schedule_text::Schedule;
use std::alloc::Global;

// Records a group, and prints what came of it.
fn record_group<F: Files>(
    alloc: Global,
    images: bool,
    schedule_file: &str,
    schedule: &Schedule,
    modules: &[SharedModule],
    files: &mut F,
) -> Result<WorkText, StopCause>
    requires { length modules.now ≡ length schedule.now.processes }
    ensures tells { TellsOutcome (group_outcome images schedule_file.now schedule.now (first_states schedule.now (map shown modules.now))) result }
    ensures makes { MakesWorkFiles result (writes_of (group_outcome images schedule_file.now schedule.now (first_states schedule.now (map shown modules.now))))
        (F.told files.old) (F.told files.new) }
    ensures stopped { StoppedWhereBegun schedule.now images (first_states schedule.now (map shown modules.now)) (F.told files.old) (F.told files.new) }
    ensures keeps { KeepsFolder result (F.told files.old) (F.told files.new) }
    ensures done { DivergesOnlyIf false result }
    ensures counts { CountsFaults (F.counts files.old) (F.counts files.new) result }
    ensures asked { (F.counts files.new).asked ≡ (F.counts files.old).asked }
    ensures cause { IfErr result (RaisesCount (F.counts files.old) (F.counts files.new)) }
{
    fri_outside::laws::keeps_files();
    match run_record(alloc, schedule, modules, files, images) {
        Ok(summary) => {
            let text = print_summary(alloc, &summary)?;
            Ok(WorkText::Done(text))
        }
        Err(error) => Err(refusal_of(alloc, schedule_file, schedule, error)),
    }
}

/// Runs the group of a schedule file, of the modules that it names, and makes the log of each process, and with
/// `images` the files of what each leaves. At a fault, and where a log is full, the logs stay as they stand. A schedule file
/// that would be made is refused before.
pub fn record<F: Files>(
    alloc: Global,
    images: bool,
    schedule_file: &str,
    files: &mut F,
) -> Result<WorkText, StopCause>
    ensures tells { WhenTold (option_map (record_outcome images schedule_file.now) (F.told files.old)) (λ outcome. TellsOutcome outcome result) }
    ensures makes { WhenTold (option_map (record_outcome images schedule_file.now) (F.told files.old)) (λ outcome.
        MakesWorkFiles result (writes_of outcome) (F.told files.old) (F.told files.new)) }
    ensures keeps { KeepsFolder result (F.told files.old) (F.told files.new) }
    ensures done { DivergesOnlyIf false result }
    ensures moment { WhenTold (F.told files.old) (λ before. LeavesMoment images schedule_file.now before (F.told files.new)) }
    ensures counts { CountsFaults (F.counts files.old) (F.counts files.new) result }
    ensures asks { WhenTold (F.told files.old) (λ folder. AsksFirst (record_inputs schedule_file.now folder) (F.counts files.old) (F.counts files.new)) }
    ensures asks_all { WhenTold (F.told files.old) (λ folder.
        OnOk result (AsksAll (record_inputs schedule_file.now folder) (F.counts files.old) (F.counts files.new))) }
    ensures cause { IfErr result (RaisesCount (F.counts files.old) (F.counts files.new)) }
{
    let inputs = gather(alloc, schedule_file, files)?;
    keep_schedule(alloc, images, schedule_file, &inputs.schedule)?;
    record_group(
        alloc,
        images,
        schedule_file,
        &inputs.schedule,
        &inputs.modules,
        files,
    )
}
