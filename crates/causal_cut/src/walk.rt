// The walk over the events of a group.
ghost use Rattle.std.specs.Prelude.{◌≡◌, IfOk};
ghost use Rattle.group_state.specs.Place.{ReplaysFit};
ghost use Rattle.causal_cut.specs.inside.Asks.{AreAsks, process_numbers};
ghost use Rattle.causal_cut.specs.Past.{accepted_counts};

use crate::asks::{Ask, push_ask};
use crate::clocks::Clocks;
use group_state::Group;
use std::alloc::{AllocError, Global};

/// What the events of a group ask for, in their order, and how many each node has.
#[derive(Drop)]
pub(crate) struct Walked {
    pub(crate) asks: Vec<Ask>,
    pub(crate) counts: Vec<u64>,
}

/// Walks a group from position 0 to its end.
pub(crate) fn walk(
    alloc: Global,
    group: Group<'_, '_>,
    numbers: &[u32],
) -> Result<Walked, AllocError>
    requires at { group.at ≡ 0 }
    requires numbers { numbers.now ≡ process_numbers group.start }
    ensures asks { IfOk result (λ walked. AreAsks group.entry.start walked.asks.items) }
    ensures counts { IfOk result (λ walked. walked.counts.items ≡ accepted_counts group.entry.start) }
    ensures fits { IfOk result (λ _. ReplaysFit group.entry.start) }
{
    group_state::laws::ordered();
    let _ = group.position();
    let mut here = group;
    let mut clocks = Clocks::none(alloc, numbers.len())?;
    let mut asks = Vec::new(alloc);
    'events: loop {
        let Some(event) = here.forward()? else {
            let counts = clocks.counts(alloc)?;
            return Ok(Walked { asks, counts });
        };
        push_ask(&mut asks, numbers, &clocks, &event)?;
        clocks.add(event.node, event.entry.clock)?;
    }
}
