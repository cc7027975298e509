// `streams MODULE LOG ..`: what was written to each stream of a group, and read of it.
ghost use Rattle.std.specs.Prelude.{◌≡◌, [], false, map, option_map, IfOk};
ghost use Rattle.command_run.specs.Run.{PerformedCommand, expectation, file_state};
ghost use Rattle.group_state.specs.Place.{AreGroupReplays, events_of_replays, group_count};
ghost use Rattle.log_pairs.specs.Pairs.{pair_inputs};
ghost use Rattle.log_pairs.specs.Meanings.{pair_of};
ghost use Rattle.streams_command.specs.inside.Meanings.{IsToldOf};
ghost use Rattle.streams_command.specs.Streams.{streams_outcome, streams_text, traffic_of_events};

use crate::printing::print;
use crate::telling::Told;
use command_run::{StopCause, WorkText};
use fri_outside::Files;
use fri_text::Text;
use group_state::Group;
use log_pairs::{Pair, begin_all, load_all};
use proc_replay::Replayer;
use std::alloc::{AllocError, Global};

fn process_of(replayer: &Replayer<'_, '_>) -> u32
    ensures { result ≡ replayer.now.head.process }
{
    replayer.head().process
}

// The numbers of the processes of these replays.
fn processes_of(alloc: Global, replayers: &[Replayer<'_, '_>]) -> Result<Vec<u32>, AllocError>
    ensures { IfOk result (λ processes. processes.items ≡ map (λ r. r.head.process) replayers.now) }
{
    replayers.iter().map(process_of).collect(alloc)
}

// The number of processes of the group whose logs these are.
fn group_count(replayers: &[Replayer<'_, '_>]) -> u32
    ensures { result ≡ group_count replayers.now }
{
    match replayers {
        [] => 0,
        [replayer, ..] => replayer.head().count,
    }
}

// What the events of these logs sent and took, all told in their order.
fn walk(alloc: Global, replayers: Vec<Replayer<'_, '_>>) -> Result<Told, AllocError>
    requires { AreGroupReplays replayers.items }
    ensures { IfOk result (λ told. IsToldOf told (traffic_of_events replayers.entry.items (events_of_replays replayers.entry.items))) }
{
    group_state::laws::ordered();
    group_state::laws::stepwise();
    byte_streams::laws::unsent_is_free();
    let count = group_count(&replayers);
    let processes = processes_of(alloc, &replayers)?;
    let mut here = Group::begin(alloc, replayers)?;
    let mut told = Told::nothing(alloc);
    'events: loop {
        let Some(event) = here.forward()? else {
            return Ok(told);
        };
        // The position bounds the counts.
        let _ = here.position();
        told.tell(count, processes[event.node as usize], &event)?;
    }
}

// What is said of the streams of these logs.
fn text_of(alloc: Global, replayers: Vec<Replayer<'_, '_>>) -> Result<Text, AllocError>
    requires { AreGroupReplays replayers.items }
    ensures { IfOk result (λ text. text ≡ streams_text (traffic_of_events replayers.entry.items (events_of_replays replayers.entry.items))) }
{
    let told = walk(alloc, replayers)?;
    print(alloc, &told)
}

/// What was written to each stream of a group's processes and read of it, as it is printed. No file is made.
pub fn streams<F: Files>(
    alloc: Global,
    pairs: &[Pair<'_>],
    files: &mut F,
) -> Result<WorkText, StopCause>
    ensures performed { PerformedCommand (expectation (option_map (streams_outcome (map pair_of pairs.now)) (F.told files.old)) (λ folder. []) (λ folder. pair_inputs (map pair_of pairs.now)) false)
        (file_state (F.told files.old) (F.counts files.old)) (file_state (F.told files.new) (F.counts files.new)) result }
    ensures same { F.told files.new ≡ F.told files.old }
{
    let all = load_all(alloc, pairs, files)?;
    let replayers = begin_all(alloc, &all)?;
    let text = text_of(alloc, replayers)?;
    Ok(WorkText::Done(text))
}
