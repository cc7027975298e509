// `schedule MODULE LOG ..`: prints the schedule of the logs of a group.
ghost use Rattle.std.specs.Prelude.{◌≡◌, [], false, List, length, map, option_map, IfErr, IfOk, MatchResult, ℕ};
ghost use Rattle.fri_outside.specs.Outside.{Counts, WhenTold};
ghost use Rattle.command_run.specs.Call.{CountsFaults, CountsNothing, RaisesCount, StopsAsCause};
ghost use Rattle.command_run.specs.Run.{PerformedCommand, expectation, file_state};
ghost use Rattle.group_state.specs.Place.{AreGroupReplays, events_of_replays};
ghost use Rattle.log_pairs.specs.Pairs.{Loaded as LoadedOf, pair_inputs};
ghost use Rattle.log_pairs.specs.Meanings.{AreLoadedPairs, pair_of};
ghost use Rattle.schedule_back.specs.Meanings.{IncomingAreBytes};
ghost use Rattle.schedule_command.specs.Schedule.{is_complete, lines_of_replays, schedule_outcome, unless_incomplete};
ghost use Rattle.schedule_command.specs.Meanings.{AnswerRecordsBack};
ghost use Rattle.schedule_command.specs.inside.Meanings.{IsScheduleText};

use command_run::{Reason, StopCause, WorkText};
use fri_bytes::Bytes;
use fri_outside::Files;
use log_pairs::{Loaded, Pair, begin_all, first_log, load_all, log_file, module_file};
use proc_replay::Replayer;
use schedule_back::{BackError, schedule_back};
use schedule_text::ProcessLine;
use std::alloc::{AllocError, Global};

// A line of the schedule for each process.
fn lines_of<'a>(
    alloc: Global,
    pairs: &[Pair<'a>],
    all: &[Loaded<'a>],
    replayers: &[Replayer<'_, '_>],
) -> Result<Vec<ProcessLine>, AllocError>
    ensures { IfOk result (λ lines. (ls : List LoadedOf) → AreLoadedPairs all.now ls → lines.items ≡ lines_of_replays (map pair_of pairs.now) ls replayers.now) }
{
    let mut lines = Vec::new(alloc);
    for replayer in replayers {
        let head = replayer.head();
        let file = module_file(pairs, all, head.process);
        let name = Bytes::from_slice(alloc, head.name)?;
        let module = Bytes::from_slice(alloc, file.as_bytes())?;
        lines.push(ProcessLine { name, module })?;
    }
    Ok(lines)
}

// Whether these are the logs of all processes of a group.
fn is_complete(replayers: &[Replayer<'_, '_>]) -> bool
    ensures { result ≡ is_complete replayers.now }
{
    match replayers {
        [] => false,
        [first, ..] => replayers.len() == first.head().count as usize,
    }
}

// The schedule of these logs, as it is printed.
fn make<'a>(
    alloc: Global,
    pairs: &[Pair<'a>],
    all: &[Loaded<'a>],
    replayers: Vec<Replayer<'_, '_>>,
) -> Result<WorkText, StopCause>
    requires loaded { (ls : List LoadedOf) × AreLoadedPairs all.now ls }
    requires replayers { AreGroupReplays replayers.items }
    ensures answer { (ls : List LoadedOf) → AreLoadedPairs all.now ls → MatchResult result (IsScheduleText (map pair_of pairs.now) ls replayers.entry.items)
        (StopsAsCause (unless_incomplete (map pair_of pairs.now) ls replayers.entry.items)) }
    ensures bytes { IfOk result (λ _. IncomingAreBytes (events_of_replays replayers.entry.items)) }
    ensures cause { (old new : Counts) → IfErr result (RaisesCount old new) }
    ensures still { CountsNothing result }
{
    if !is_complete(&replayers) {
        return Err(StopCause::refuse(alloc, first_log(pairs), Reason::Incomplete));
    }
    let lines = lines_of(alloc, pairs, all, &replayers)?;
    match schedule_back(alloc, &lines, replayers) {
        Ok(text) => Ok(WorkText::Done(text)),
        Err(BackError::NotWhole(p)) => {
            let file = log_file(pairs, all, p);
            Err(StopCause::refuse(alloc, file, Reason::NotWhole))
        }
        Err(BackError::BadModuleName(p)) => {
            let file = module_file(pairs, all, p);
            Err(StopCause::refuse(alloc, file, Reason::BadModuleName))
        }
        Err(BackError::TooManyEvents) => {
            let file = first_log(pairs);
            Err(StopCause::refuse(alloc, file, Reason::TooManyEvents))
        }
        Err(BackError::TooLong) => {
            let file = first_log(pairs);
            Err(StopCause::refuse(alloc, file, Reason::TooLong))
        }
        Err(BackError::NoMemory) => Err(StopCause::NoMemory),
    }
}

/// The schedule that records to the logs of a group, as it is printed. No file is made.
pub fn schedule<'a, F: Files>(
    alloc: Global,
    pairs: &[Pair<'a>],
    files: &mut F,
) -> Result<WorkText, StopCause>
    ensures performed { PerformedCommand (expectation (option_map (schedule_outcome (map pair_of pairs.now)) (F.told files.old)) (λ folder. []) (λ folder. pair_inputs (map pair_of pairs.now)) false)
        (file_state (F.told files.old) (F.counts files.old)) (file_state (F.told files.new) (F.counts files.new)) result }
    ensures same { F.told files.new ≡ F.told files.old }
    ensures converse { WhenTold (F.told files.old) (λ folder. IfOk result (AnswerRecordsBack (map pair_of pairs.now) folder)) }
{
    call_log::laws::exact_logs();
    call_log::laws::rewritten_is_read();
    command_run::laws::reads_modules();
    schedule_text::laws::written_is_read();
    guest_process::laws::states_fit();
    schedule_back::laws::records_back();
    let all = load_all(alloc, pairs, files)?;
    let replayers = begin_all(alloc, &all)?;
    make(alloc, pairs, &all, replayers)
}
