// The replays of the logs that were recorded.
ghost use Rattle.std.specs.Prelude.{◌≡◌, ◌<◌, ℕ, List, IfOk, Some};
ghost use Rattle.wasm_types.specs.Modules.{module_of};
ghost use Rattle.guest_process.specs.Start.{start};
ghost use Rattle.guest_process.specs.State.{State};
ghost use Rattle.group_record.specs.Logs.{log_name};
ghost use Rattle.group_record.specs.Run.{RunStep, name_of_process};
ghost use Rattle.group_state.specs.Place.{AreGroupReplays};
ghost use Rattle.drill_command.specs.Drill.{drill_group, replay_of_process, replays_of_logs};
ghost use Rattle.drill_command.specs.Ring.{ring_module};
ghost use Rattle.drill_command.specs.inside.Results.{HoldLogs};

use call_log::LogView;
use fri_outside::MemFiles;
use guest_module::ValidModule;
use guest_process::Process;
use proc_replay::Replayer;
use std::alloc::{AllocError, Global};
use wasm_step::StartError;

const RING_PROCESSES: u32 = 4;

// The replay of process p, whose log has this name.
fn begin<'m, 'a>(
    alloc: Global,
    module: &'m ValidModule,
    files: &'a MemFiles,
    p: u32,
    log: &str,
) -> Result<Replayer<'m, 'a>, AllocError>
    requires module { module_of «module».now ≡ ring_module }
    requires process { p < 4 }
    requires log { log.now ≡ log_name (name_of_process drill_group p) }
    requires held { (steps : List RunStep) × HoldLogs steps files.now }
    ensures { IfOk result (λ r. (S : State) × (start ring_module p 4 ≡ Some S)
        × ((steps : List RunStep) → HoldLogs steps files.now → r ≡ replay_of_process drill_group steps p S)) }
{
    call_log::laws::exact_logs();
    guest_process::laws::counting();
    let Some(bytes) = files.bytes(log) else {
        unreachable!();
    };
    let Ok(log) = LogView::begin(bytes) else {
        unreachable!();
    };
    match Process::start(alloc, module, p, RING_PROCESSES) {
        Ok(process) => Ok(Replayer::begin(alloc, process, log)?),
        Err(StartError::BadSegment) => unreachable!(),
        Err(StartError::NoMemory) => Err(AllocError),
    }
}

/// The replays of the four logs, whose processes are of one module.
pub(crate) fn begin_all<'m, 'a>(
    alloc: Global,
    module: &'m ValidModule,
    files: &'a MemFiles,
) -> Result<Vec<Replayer<'m, 'a>>, AllocError>
    requires module { module_of «module».now ≡ ring_module }
    requires held { (steps : List RunStep) × HoldLogs steps files.now }
    ensures replayers { IfOk result (λ replayers. AreGroupReplays replayers.items) }
    ensures replays { IfOk result (λ replayers. (steps : List RunStep) → HoldLogs steps files.now → replayers.items ≡ replays_of_logs drill_group steps) }
{
    guest_process::laws::counting();
    let n0 = begin(alloc, module, files, 0, "n0.log")?;
    let n1 = begin(alloc, module, files, 1, "n1.log")?;
    let n2 = begin(alloc, module, files, 2, "n2.log")?;
    let n3 = begin(alloc, module, files, 3, "n3.log")?;
    Ok(vec![in alloc; n0, n1, n2, n3]?)
}
