// What the events of a group ask of each other.
ghost use Rattle.std.specs.Prelude.{◌≡◌, ◌==◌, ◌<◌, ◌≤◌, ◌++◌, IfOk, OnOk, length, position};
ghost use Rattle.std.specs.Option.{option_to_list};
ghost use Rattle.lamport_tag.specs.Limits.{most_processes};
ghost use Rattle.group_state.specs.Moves.{event_of};
ghost use Rattle.causal_cut.specs.inside.Asks.{AreClocks, ask_of, process_numbers};

use crate::clocks::Clocks;
use group_state::GroupEvent;
use proc_replay::Replayer;
use std::alloc::{AllocError, Global};

/// An event asks for others: event `number` of `node`, counted from 1, took a tag that names the event after which `of` has
/// had `upto` events.
#[derive(Clone, Copy)]
pub(crate) struct Ask {
    pub(crate) node: u32,
    pub(crate) number: u64,
    pub(crate) of: u32,
    pub(crate) upto: u64,
}

/// The number of each node's process.
pub(crate) fn process_numbers(
    alloc: Global,
    replayers: &[Replayer<'_, '_>],
) -> Result<Vec<u32>, AllocError>
    ensures { IfOk result (λ numbers. numbers.items ≡ process_numbers replayers.now) }
{
    let mut numbers = Vec::new(alloc);
    for replayer in replayers {
        numbers.push(replayer.head().process)?;
    }
    Ok(numbers)
}

// The first node whose process has this number.
fn node_of(processes: &[u32], process: u32) -> Option<usize>
    ensures { result ≡ position (λ p. p == process) processes.now }
{
    processes.iter().position(|p| *p == process)
}

// What an event asks for that comes after events with these clocks. The event that a tag names has had its place before, so
// that a clock that is not among them is of no accepted event.
fn ask_of(processes: &[u32], clocks: &Clocks, event: &GroupEvent<'_>) -> Option<Ask>
    requires few { length processes.now ≤ most_processes }
    requires clocks { AreClocks (length processes.now) clocks.now }
    requires node { event.now.node < length processes.now }
    ensures { result ≡ ask_of processes.now clocks.now (event_of event.now) }
{
    let tag = event.entry.tag?;
    let of = node_of(processes, tag.sender)? as u32;
    let upto = clocks.number(of, tag.clock)?;
    Some(Ask {
        node: event.node,
        number: clocks.count(event.node) + 1,
        of,
        upto,
    })
}

/// Adds what an event asks for.
pub(crate) fn push_ask(
    asks: &mut Vec<Ask>,
    processes: &[u32],
    clocks: &Clocks,
    event: &GroupEvent<'_>,
) -> Result<(), AllocError>
    requires few { length processes.now ≤ most_processes }
    requires clocks { AreClocks (length processes.now) clocks.now }
    requires node { event.now.node < length processes.now }
    ensures { OnOk result (asks.new.items ≡ asks.old.items ++ option_to_list (ask_of processes.now clocks.now (event_of event.now))) }
{
    if let Some(ask) = ask_of(processes, clocks, event) {
        asks.push(ask)?;
    }
    Ok(())
}
