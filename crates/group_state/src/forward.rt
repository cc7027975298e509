// One turn of a group's node.
ghost use Rattle.std.specs.Prelude.{◌≡◌, ◌<◌, OnOk, length};
ghost use Rattle.group_state.specs.inside.Turns.{head_of_replay, NodeTurns};

use proc_replay::{Replayer, Turn};
use std::alloc::AllocError;

/// The clock of a replay's next event, where it has one.
pub(crate) fn head_of(replayer: &Replayer<'_, '_>) -> Option<u64>
    ensures { result ≡ head_of_replay replayer.now }
{
    match replayer.peek() {
        Turn::Event(entry) => Some(entry.clock),
        Turn::LogEnd => None,
        Turn::Diverged(..) => None,
    }
}

/// Gives a node its next turn. The others stay as they are.
pub(crate) fn take_turn<'a>(
    replayers: &mut Vec<Replayer<'_, 'a>>,
    node: u32,
) -> Result<(), AllocError>
    requires { node < length replayers.old.items }
    ensures { OnOk result (NodeTurns replayers.old.items node replayers.new.items) }
{
    let last = replayers.len() - 1;
    let replayer = replayers.swap_remove(node as usize);
    let (replayer, _) = replayer.next_event()?;
    replayers.push(replayer)?;
    replayers.swap(node as usize, last);
    Ok(())
}
