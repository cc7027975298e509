// How long a family must be for what its events ask for.
ghost use Rattle.std.specs.Prelude.{◌≡◌, ◌<◌, IfOk, length};
ghost use Rattle.causal_cut.specs.inside.Asks.{AreOfNodes, lengths_of_one, follow_ask, settled_family};

use crate::asks::Ask;
use std::alloc::{AllocError, Global};

// Gives a family what an event asks for, where it holds that event.
fn follow_ask(lengths: &mut [u64], ask: &Ask)
    requires node { ask.now.node < length lengths.old }
    requires of { ask.now.of < length lengths.old }
    ensures { lengths.new ≡ follow_ask ask.now lengths.old }
{
    if ask.number <= lengths[ask.node as usize] {
        let length = &mut lengths[ask.of as usize];
        *length = (*length).max(ask.upto);
    }
}

// Gives a family all that its events ask for. Once is enough, from the last of them to the first: what an event asks for
// comes before it.
fn settle(lengths: &mut [u64], asks: &[Ask])
    requires { AreOfNodes (length lengths.old) asks.now }
    ensures { lengths.new ≡ settled_family asks.now lengths.old }
{
    for ask in asks.iter().rev() {
        follow_ask(lengths, ask);
    }
}

/// The family with so many events of this node, and with all that its events ask for.
pub(crate) fn least_family(
    alloc: Global,
    asks: &[Ask],
    nodes: usize,
    node: u32,
    event: u64,
) -> Result<Vec<u64>, AllocError>
    requires node { node < nodes }
    requires asks { AreOfNodes nodes asks.now }
    ensures { IfOk result (λ family. family.items ≡ settled_family asks.now (lengths_of_one nodes node event)) }
{
    let mut family = Vec::from_elem(alloc, 0, nodes)?;
    family[node as usize] = event;
    settle(&mut family, asks);
    Ok(family)
}
