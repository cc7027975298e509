// How much of each log an event needs.
ghost use Rattle.std.specs.Prelude.{◌≡◌, ◌<◌, IfOk, MatchResult, Some, length, slice_get};
ghost use Rattle.group_state.specs.Place.{AreGroupReplays, ReplaysFit};
ghost use Rattle.causal_cut.specs.Laws.{IsLeastPast};
ghost use Rattle.causal_cut.specs.Past.{lengths_or_none};
ghost use Rattle.causal_cut.specs.Meanings.{IsCutError};

use crate::asks::process_numbers;
use crate::refusal::CutError;
use crate::settle::least_family;
use crate::walk::walk;
use group_state::Group;
use proc_replay::Replayer;
use std::alloc::Global;
use std::marker::Model;

/// How many of the first events of each log an event needs, and how many events are accepted.
#[derive(Drop)]
pub struct Cut {
    kept: Vec<u64>,
    accepted: Vec<u64>,
}

impl Model for Cut {
    ghost use Rattle.causal_cut.specs.Past.{Lengths};

    ghost Value = { Lengths };

    ghost view = { λ cut. record { kept = cut.kept.items; accepted = cut.accepted.items } };
}

impl Cut {
    /// How many events of a node's log are kept. None comes exactly where there is no such node.
    pub fn length(&self, node: u32) -> Option<u64>
        ensures { result ≡ slice_get self.now.kept node }
    {
        self.kept.get(node as usize).copied()
    }

    /// How many events of a node's log are accepted. None comes exactly where there is no such node.
    pub fn accepted(&self, node: u32) -> Option<u64>
        ensures { result ≡ slice_get self.now.accepted node }
    {
        self.accepted.get(node as usize).copied()
    }
}

/// How much of the logs of a group the event with this number of a node needs, counted from 1. Nodes are the logs in order
/// of their processes' numbers, counted from 0.
pub fn least_cut(
    alloc: Global,
    replayers: Vec<Replayer<'_, '_>>,
    node: u32,
    event: u64,
) -> Result<Cut, CutError>
    requires replayers { AreGroupReplays replayers.items }
    requires node { node < length replayers.items }
    ensures answer { MatchResult result (λ cut. lengths_or_none replayers.entry.items node event ≡ Some cut)
        (IsCutError (lengths_or_none replayers.entry.items node event)) }
    ensures least { IfOk result (λ cut. IsLeastPast replayers.entry.items node event cut.kept) }
    ensures fits { IfOk result (λ _. ReplaysFit replayers.entry.items) }
{
    let processes = process_numbers(alloc, &replayers)?;
    let group = Group::begin(alloc, replayers)?;
    let walked = walk(alloc, group, &processes)?;
    let accepted = walked.counts;
    if event > accepted[node as usize] {
        return Err(CutError::NoEvent);
    }
    let kept = least_family(alloc, &walked.asks, accepted.len(), node, event)?;
    Ok(Cut { kept, accepted })
}
