// The schedule of the logs of a group.
ghost use Rattle.std.specs.Prelude.{◌≡◌, IfOk, MatchResult, Ok, length};
ghost use Rattle.group_state.specs.Place.{AreGroupReplays, events_of_replays};
ghost use Rattle.schedule_back.specs.Outcome.{first_bad_name, first_not_whole, is_whole, text_or_refusal};
ghost use Rattle.schedule_back.specs.Meanings.{IncomingAreBytes, IsBackError};

use crate::draft::{begin, walk};
use crate::refusal::BackError;
use fri_text::Text;
use group_state::Group;
use guest_process::Verdict;
use proc_replay::Replayer;
use schedule_text::{MOST_RUNS, ProcessLine, is_module_name};
use std::alloc::Global;

fn is_whole(verdict: Verdict) -> bool
    ensures { result ≡ is_whole verdict }
{
    match verdict {
        Verdict::Whole => true,
        Verdict::Left(_) => false,
        Verdict::Diverged(..) => false,
    }
}

// The first log that is not whole, of a group at its end.
fn first_not_whole(group: &Group<'_, '_>) -> Option<u32>
    requires { group.now.at ≡ length (events_of_replays group.now.start) }
    ensures { result ≡ first_not_whole group.now.start }
{
    for node in 0..group.nodes() {
        let Some(verdict) = group.verdict(node) else {
            unreachable!();
        };
        if !is_whole(verdict) {
            return Some(node);
        }
    }
    None
}

// The first process whose module no schedule may name.
fn first_bad_name(lines: &[ProcessLine]) -> Option<usize>
    ensures { result ≡ first_bad_name lines.now }
{
    lines
        .iter()
        .position(|line| !is_module_name(line.module.as_slice()))
}

/// The text of the schedule that records to the logs of a group: of these lines, one for each process, and of all accepted
/// events in their order. Each log is replayed once. The refusals come in the order in which `BackError` has them.
pub fn schedule_back(
    alloc: Global,
    lines: &[ProcessLine],
    replayers: Vec<Replayer<'_, '_>>,
) -> Result<Text, BackError>
    requires replayers { AreGroupReplays replayers.items }
    requires lines { length lines.now ≡ length replayers.items }
    ensures answer { MatchResult result (λ text. text_or_refusal lines.now replayers.entry.items ≡ Ok text)
        (IsBackError (text_or_refusal lines.now replayers.entry.items)) }
    ensures bytes { IfOk result (λ _. IncomingAreBytes (events_of_replays replayers.entry.items)) }
{
    let draft = begin(alloc, lines)?;
    let mut group = Group::begin(alloc, replayers)?;
    let draft = walk(alloc, &mut group, draft)?;
    if let Some(process) = first_not_whole(&group) {
        return Err(BackError::NotWhole(process));
    }
    if let Some(process) = first_bad_name(lines) {
        return Err(BackError::BadModuleName(process as u32));
    }
    if group.position() > MOST_RUNS {
        return Err(BackError::TooManyEvents);
    }
    draft.ok_or(BackError::TooLong)
}
