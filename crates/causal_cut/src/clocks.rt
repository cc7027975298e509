// The clocks of the events so far.
ghost use Rattle.std.specs.Prelude.{◌≡◌, ◌<◌, ◌^◌, [], IfOk, OnOk, length, map, replicate, slice_index_or};
ghost use Rattle.causal_cut.specs.inside.Asks.{AreRisingClocks, number_among, with_node_clock};

use std::alloc::{AllocError, Global};
use std::marker::Model;

/// For each node the clocks of its events so far, in their order.
#[derive(Drop)]
pub(crate) struct Clocks {
    of: Vec<Vec<u64>>,
}

impl Model for Clocks {
    ghost use Rattle.std.specs.Prelude.{List, ℕ, map};

    ghost Value = { List (List ℕ) };

    ghost view = { λ clocks. map (λ own. own.items) clocks.of.items };
}

impl Clocks {
    /// So many nodes have had no event.
    pub(crate) fn none(alloc: Global, nodes: usize) -> Result<Clocks, AllocError>
        ensures { IfOk result (λ clocks. clocks ≡ replicate nodes []) }
    {
        let mut of = Vec::new(alloc);
        for _ in 0..nodes {
            of.push(Vec::new(alloc))?;
        }
        Ok(Clocks { of })
    }

    /// The node had an event with this clock.
    pub(crate) fn add(&mut self, node: u32, clock: u64) -> Result<(), AllocError>
        requires { node < length self.old }
        ensures { OnOk result (self.new ≡ with_node_clock self.old node clock) }
    {
        self.of[node as usize].push(clock)?;
        Ok(())
    }

    /// How many events the node has had.
    pub(crate) fn count(&self, node: u32) -> u64
        requires { node < length self.now }
        ensures count { result ≡ length (slice_index_or self.now node []) }
        ensures small { result < 2 ^ 63 }
    {
        self.of[node as usize].len() as u64
    }

    /// The number of the node's event with this clock, from 1. None comes exactly where there is none.
    pub(crate) fn number(&self, node: u32, clock: u64) -> Option<u64>
        requires node { node < length self.now }
        requires rises { AreRisingClocks (slice_index_or self.now node []) }
        ensures { result ≡ number_among clock (slice_index_or self.now node []) }
    {
        let index = self.of[node as usize].binary_search(&clock).ok()?;
        Some(index as u64 + 1)
    }

    /// How many events each node has had.
    pub(crate) fn counts(&self, alloc: Global) -> Result<Vec<u64>, AllocError>
        ensures { IfOk result (λ counts. counts.items ≡ map length self.now) }
    {
        let mut counts = Vec::new(alloc);
        for own in &self.of {
            counts.push(own.len() as u64)?;
        }
        Ok(counts)
    }
}
