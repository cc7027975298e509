// The recording of the group, into files in memory.
ghost use Rattle.std.specs.Prelude.{◌≡◌, ◌≤◌, IfOk, map};
ghost use Rattle.wasm_types.specs.Modules.{module_of};
ghost use Rattle.schedule_text.specs.Limits.{most_rounds};
ghost use Rattle.drill_command.specs.Drill.{drill_modules};
ghost use Rattle.drill_command.specs.inside.Results.{HasAllRounds};

use fri_outside::MemFiles;
use group_record::{RecordError, run_record};
use guest_module::SharedModule;
use std::alloc::{AllocError, Global};

/// The logs of a recording, and how many of its tries and items were idle.
#[derive(Drop)]
pub(crate) struct Recording {
    pub(crate) files: MemFiles,
    pub(crate) idle: u64,
}

/// Records so many rounds.
pub(crate) fn record(
    alloc: Global,
    rounds: u32,
    modules: &[SharedModule],
) -> Result<Recording, AllocError>
    requires some { 1 ≤ rounds }
    requires few { rounds ≤ most_rounds }
    requires modules { map module_of modules.now ≡ drill_modules }
    ensures { IfOk result (HasAllRounds rounds) }
{
    fri_outside::laws::keeps_files();
    wasm_validate::laws::exact_fault();
    group_record::laws::beginning();
    group_record::laws::agreement();
    let schedule = schedule_text::drill(alloc, rounds)?;
    let mut files = MemFiles::new(alloc);
    match run_record(alloc, &schedule, modules, &mut files, false) {
        Ok(summary) => Ok(Recording {
            files,
            idle: summary.idle,
        }),
        Err(RecordError::LogFull(_)) => unreachable!(),
        Err(RecordError::BadSegment(_)) => unreachable!(),
        // No call on these files is to fail, so a write fails for want of memory alone.
        Err(RecordError::WriteFault | RecordError::NoMemory) => Err(AllocError),
    }
}
