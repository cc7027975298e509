// Which process of a group comes next.
ghost use Rattle.std.specs.Prelude.{◌≡◌, ◌<◌, [], None, IfOk, IfSome, length, replicate, slice_set};
ghost use Rattle.group_order.specs.Heads.{IsNextNode};

use std::alloc::{AllocError, Global};
use std::marker::Model;

/// The clock of the next event of each node, where it has one. Contracts see the list of these clocks, each
/// at the number of its node.
pub struct Merge {
    heads: Vec<Option<u64>>,
}

// By hand, so that it is proved here, and not in each crate that owns one.
impl Drop for Merge {
    fn drop(self) {
        let Self { heads: _heads } = self;
    }
}

impl Model for Merge {
    ghost use Rattle.std.specs.Prelude.{List, Option, ℕ, ◌<◌, ◌^◌, length};

    ghost Value = { List (Option ℕ) };

    ghost view = { λ merge. merge.heads.items };

    ghost invariant = { λ merge. length merge.heads.items < 2 ^ 32 };
}

// The head of a node.
#[derive(Clone, Copy)]
struct Head {
    node: u32,
    clock: u64,
}

impl Merge {
    /// So many nodes, none of which has a clock.
    pub fn new(alloc: Global, nodes: u32) -> Result<Merge, AllocError>
        ensures { IfOk result (λ merge. merge ≡ replicate nodes None) }
    {
        let heads = Vec::from_elem(alloc, None, nodes as usize)?;
        Ok(Merge { heads })
    }

    /// No nodes are left.
    pub fn clear(&mut self)
        ensures { self.new ≡ [] }
    {
        self.heads.clear();
    }

    /// Gives a node this clock, or none.
    pub fn set_head(&mut self, node: u32, clock: Option<u64>)
        requires { node < length self.old }
        ensures { self.new ≡ slice_set self.old node clock }
    {
        self.heads[node as usize] = clock;
    }

    /// The node with the least clock, and among equal clocks the least node. None comes exactly where no
    /// node has a clock.
    pub fn next_node(&self) -> Option<u32>
        ensures next { IsNextNode self.now result }
        ensures within { IfSome result (λ node. node < length self.now) }
    {
        let mut first: Option<Head> = None;
        'nodes: for (node, clock) in self.heads.iter().enumerate() {
            let Some(clock) = *clock else { continue };
            match first {
                Some(head) if head.clock <= clock => {}
                _ => {
                    first = Some(Head {
                        node: node as u32,
                        clock,
                    });
                }
            }
        }
        Some(first?.node)
    }
}
