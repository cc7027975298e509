// How much of the logs of a group an event needs, before any file is made.
ghost use Rattle.std.specs.Prelude.{◌≡◌, ◌<◌, All, IfErr, IfOk, List, MatchResult, length, map, ℕ};
ghost use Rattle.fri_outside.specs.Outside.{Counts};
ghost use Rattle.call_log.specs.Head.{IsHead};
ghost use Rattle.command_run.specs.Apart.{unless_over_input};
ghost use Rattle.command_run.specs.Call.{CountsNothing, RaisesCount, TellsResult};
ghost use Rattle.proc_replay.specs.AtHead.{IsAtHead};
ghost use Rattle.group_state.specs.Place.{AreGroupReplays};
ghost use Rattle.causal_cut.specs.Past.{lengths_or_none};
ghost use Rattle.causal_cut.specs.Meanings.{IsCutError};
ghost use Rattle.log_pairs.specs.Pairs.{Loaded as LoadedOf, names_of_pairs};
ghost use Rattle.log_pairs.specs.Meanings.{AreLoadedPairs, pair_of};
ghost use Rattle.cut_command.specs.Cut.{cut_of_pairs, cut_of_replays, node_of_process};
ghost use Rattle.cut_command.specs.Laws.{IsCutLog};
ghost use Rattle.cut_command.specs.inside.Meanings.{AreLeastFronts, front_file, work_of_past};

use crate::fronts::{Front, cut_names, fronts_of, logs_of, print};
use causal_cut::{CutError, least_cut};
use command_run::{Reason, StopCause, keep_apart};
use fri_text::Text;
use log_pairs::{Loaded, Pair, file_names, first_log, log_file};
use proc_replay::Replayer;
use std::alloc::Global;

/// How much is kept of the logs of a group, in order of their processes' numbers, and the text that says so.
#[derive(Drop)]
pub(crate) struct Past<'m> {
    pub(crate) fronts: Vec<Front<'m>>,
    pub(crate) text: Text,
}

// The node of this process.
fn node_of(replayers: &[Replayer<'_, '_>], process: u32) -> Option<usize>
    ensures { result ≡ node_of_process process replayers.now }
{
    replayers
        .iter()
        .position(|replayer| replayer.head().process == process)
}

// How much of these logs the event of this number of a node needs.
fn least_fronts<'m>(
    alloc: Global,
    replayers: Vec<Replayer<'m, 'm>>,
    node: usize,
    event: u64,
) -> Result<Vec<Front<'m>>, CutError>
    requires replayers { AreGroupReplays replayers.items }
    requires node { node < length replayers.items }
    ensures { MatchResult result (λ fronts. AreLeastFronts replayers.entry.items node event fronts.items)
        (IsCutError (lengths_or_none replayers.entry.items node event)) }
{
    let logs = logs_of(alloc, &replayers)?;
    let cut = least_cut(alloc, replayers, node as u32, event)?;
    Ok(fronts_of(alloc, &logs, &cut)?)
}

// How much of these logs the event of this number of a process needs.
fn find_past<'m>(
    alloc: Global,
    process: u32,
    event: u64,
    pairs: &[Pair<'_>],
    all: &[Loaded<'_>],
    replayers: Vec<Replayer<'m, 'm>>,
) -> Result<Past<'m>, StopCause>
    requires replayers { AreGroupReplays replayers.items }
    requires at_heads { All IsAtHead replayers.items }
    ensures answer { (ls : List LoadedOf) → AreLoadedPairs all.now ls → TellsResult work_of_past (cut_of_replays (map pair_of pairs.now) ls process event replayers.entry.items) result }
    ensures least { IfOk result (λ past. IsCutLog process event replayers.entry.items (work_of_past past)) }
    ensures heads { IfOk result (λ past. All (λ front. IsHead front.log.head) past.fronts.items) }
    ensures cause { (old new : Counts) → IfErr result (RaisesCount old new) }
    ensures still { CountsNothing result }
{
    causal_cut::laws::fronts_replay();
    let Some(node) = node_of(&replayers, process) else {
        return Err(StopCause::refuse(alloc, first_log(pairs), Reason::NoProcess));
    };
    let fronts = match least_fronts(alloc, replayers, node, event) {
        Ok(fronts) => fronts,
        Err(CutError::NoEvent) => {
            let file = log_file(pairs, all, process);
            return Err(StopCause::refuse(alloc, file, Reason::NoEvent));
        }
        Err(CutError::NoMemory) => return Err(StopCause::NoMemory),
    };
    let text = print(alloc, &fronts)?;
    Ok(Past { fronts, text })
}

// Refuses a file of these pairs if one of its name would be made of a log.
fn keep_pairs(alloc: Global, pairs: &[Pair<'_>], fronts: &[Front<'_>]) -> Result<(), StopCause>
    requires { All (λ front. IsHead front.log.head) fronts.now }
    ensures answer { TellsResult (λ done. done) (unless_over_input (names_of_pairs (map pair_of pairs.now)) (map (λ file. file.0) (map front_file fronts.now))) result }
    ensures cause { (old new : Counts) → IfErr result (RaisesCount old new) }
    ensures still { CountsNothing result }
{
    let read = file_names(alloc, pairs)?;
    let made = cut_names(alloc, fronts)?;
    keep_apart(alloc, &read, &made)
}

/// How much of these logs the event of this number of a process needs, if no file of these pairs would be made. No file has
/// changed.
pub(crate) fn take_past<'m>(
    alloc: Global,
    process: u32,
    event: u64,
    pairs: &[Pair<'_>],
    all: &[Loaded<'_>],
    replayers: Vec<Replayer<'m, 'm>>,
) -> Result<Past<'m>, StopCause>
    requires replayers { AreGroupReplays replayers.items }
    requires at_heads { All IsAtHead replayers.items }
    ensures answer { (ls : List LoadedOf) → AreLoadedPairs all.now ls → TellsResult work_of_past (cut_of_pairs (map pair_of pairs.now) ls process event replayers.entry.items) result }
    ensures least { IfOk result (λ past. IsCutLog process event replayers.entry.items (work_of_past past)) }
    ensures heads { IfOk result (λ past. All (λ front. IsHead front.log.head) past.fronts.items) }
    ensures cause { (old new : Counts) → IfErr result (RaisesCount old new) }
    ensures still { CountsNothing result }
{
    let past = find_past(alloc, process, event, pairs, all, replayers)?;
    keep_pairs(alloc, pairs, &past.fronts)?;
    Ok(past)
}
