// `drill N`: records, replays and watches a group that hands a number round.
ghost use Rattle.std.specs.Prelude.{◌≡◌, ◌≤◌, [], false, IfOk, Option, Some};
ghost use Rattle.fri_outside.specs.Outside.{Counts, Folder};
ghost use Rattle.schedule_text.specs.Limits.{most_rounds};
ghost use Rattle.command_run.specs.Run.{PerformedCommand, expectation, file_state};
ghost use Rattle.drill_command.specs.Drill.{drill_outcome, drill_run, drill_work};

use crate::recording::record;
use crate::replays::begin_all;
use crate::ring::modules;
use crate::text::print;
use crate::watching::watch;
use command_run::{StopCause, WorkText};
use fri_text::Text;
use group_state::Group;
use std::alloc::{AllocError, Global};

// Records, replays and walks, and prints what came of it.
fn perform(alloc: Global, rounds: u32) -> Result<Text, AllocError>
    requires some { 1 ≤ rounds }
    requires few { rounds ≤ most_rounds }
    ensures { IfOk result (λ text. text ≡ (drill_work rounds (drill_run rounds)).text) }
{
    let modules = modules(alloc)?;
    let recording = record(alloc, rounds, &modules)?;
    let replays = begin_all(alloc, modules[0].module(), &recording.files)?;
    let watched = watch(alloc, Group::begin(alloc, replays)?)?;
    print(alloc, rounds, recording.idle, &watched)
}

#[tactic(none)]
/// Records so many rounds into files in memory, replays the logs, and walks all positions with a watchpoint. No other
/// file is read or made.
pub fn drill_rounds(alloc: Global, rounds: u32) -> Result<WorkText, StopCause>
    requires some { 1 ≤ rounds }
    requires few { rounds ≤ most_rounds }
    ensures { (told : Option Folder) (counts : Counts)
        → PerformedCommand (expectation (Some (drill_outcome rounds)) (λ folder. []) (λ folder. []) false) (file_state told counts) (file_state told counts) result }
{
    Ok(WorkText::Done(perform(alloc, rounds)?))
}
