// At which positions the nodes of a group had their events.
ghost use Rattle.std.specs.Prelude.{◌≡◌, ◌<◌, IfOk, OnOk, length, slice_index_or};
ghost use Rattle.group_order.specs.Motions.{no_motions, position_of, with_motion};

use std::alloc::{AllocError, Global};
use std::marker::Model;

/// For each node the positions of its events, in order, up to the greatest position at which the group has been. Going back
/// takes none of them away, since the position of an event never changes.
pub struct Motions {
    reached: u64,
    of: Vec<Vec<u64>>,
}

// By hand, so that it is proved here, and not in each crate that owns one.
impl Drop for Motions {
    fn drop(self) {
        let Self {
            reached: _reached,
            of: _of,
        } = self;
    }
}

impl Model for Motions {
    ghost use Rattle.group_order.specs.Motions.{Motions as Known};

    ghost Value = { Known };

    ghost use Rattle.std.specs.Prelude.{map};

    ghost view = { λ m. record { reached = m.reached; lists = map (λ positions. positions.items) m.of.items } };
}

impl Motions {
    /// So many nodes have had no event.
    pub fn none(alloc: Global, nodes: usize) -> Result<Motions, AllocError>
        ensures { IfOk result (λ motions. motions ≡ no_motions nodes) }
    {
        let mut of = Vec::new(alloc);
        for _ in 0..nodes {
            of.push(Vec::new(alloc))?;
        }
        Ok(Motions { reached: 0, of })
    }

    /// No nodes are left.
    pub fn clear(&mut self)
        ensures { self.new ≡ no_motions 0 }
    {
        self.of.clear();
        self.reached = 0;
    }

    /// The node had the event of this position, which is known where the group has been there.
    pub fn add(&mut self, node: u32, position: u64) -> Result<(), AllocError>
        requires { node < length self.old.lists }
        ensures { OnOk result (self.new ≡ with_motion self.old node position) }
    {
        if self.reached < position {
            self.of[node as usize].push(position)?;
            self.reached = position;
        }
        Ok(())
    }

    /// The greatest position at which the group has been.
    pub fn reached(&self) -> u64
        ensures { result ≡ self.now.reached }
    {
        self.reached
    }

    /// The position of the node's event of this number, from 1. It is 0 where there is none.
    pub fn position(&self, node: u32, number: u64) -> u64
        ensures { result ≡ position_of self.now node number }
    {
        if number == 0 {
            return 0;
        }
        match self.of.get(node as usize) {
            Some(positions) => at_index(positions, (number - 1) as usize),
            None => 0,
        }
    }
}

fn at_index(positions: &[u64], index: usize) -> u64
    ensures { result ≡ slice_index_or positions.now index 0 }
{
    match positions.get(index) {
        Some(position) => *position,
        None => 0,
    }
}
