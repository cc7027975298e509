// The operands' types, as one stack for all open blocks.
ghost use Rattle.std.specs.Prelude.{◌≡◌, [], ◌∷◌, List, OnOk, MatchOption, ◌&&◌};
ghost use Rattle.wasm_types.specs.Stack.{no_operands, jumped_stack, push_operand, pop, has_no_operand, BlockStack};

use std::alloc::{AllocError, Global};
use std::marker::Model;
use wasm_types::ValType;

/// The type of an operand, or none where it is not known, as after a jump.
pub(crate) type Operand = Option<ValType>;

// Where a block's operands begin, and whether a jump has made the rest of its code unreachable.
#[derive(Clone, Copy)]
struct Frame {
    height: usize,
    after_jump: bool,
}

/// The operands of the block that is being read, and of those around it.
#[derive(Drop)]
pub(crate) struct Operands {
    types: Vec<Operand>,
    current: Frame,
    outer: Vec<Frame>,
}

impl Model for Operands {
    ghost use Rattle.std.specs.Prelude.{reverse, ◌∷◌};
    ghost use Rattle.wasm_typing.specs.inside.Operands.{Blocks, blocks_of, AreHeights};

    ghost Value = { Blocks };

    ghost view = { λ o. blocks_of o.current (reverse o.outer.items) o.types.items };

    ghost invariant = { λ o. AreHeights (o.current ∷ reverse o.outer.items) o.types.items };
}

impl Operands {
    /// No operands, and one block.
    pub(crate) fn new(alloc: Global) -> Operands
        ensures { result ≡ record { current = no_operands; outer = [] } }
    {
        Operands {
            types: Vec::new(alloc),
            current: Frame {
                height: 0,
                after_jump: false,
            },
            outer: Vec::new(alloc),
        }
    }

    pub(crate) fn push(&mut self, operand: Operand) -> Result<(), AllocError>
        ensures { OnOk result (self.new ≡ record self.old { current = push_operand operand self.old.current }) }
    {
        self.types.push(operand)?;
        Ok(())
    }

    /// The top operand of the current block.
    pub(crate) fn pop(&mut self) -> Option<Operand>
        ensures popped { MatchOption result
            (pop self.old.current ≡ None)
            (λ x. pop self.old.current ≡ Some (record { operand = x; below = self.new.current })) }
        ensures outer { self.new.outer ≡ self.old.outer }
    {
        if self.types.len() > self.current.height {
            self.types.pop()
        } else if self.current.after_jump {
            Some(None)
        } else {
            None
        }
    }

    /// Whether the current block has no operands, and any may be popped.
    pub(crate) fn is_unknown(&self) -> bool
        ensures { result ≡ (self.now.current.after_jump && has_no_operand self.now.current.types) }
    {
        self.current.after_jump && self.types.len() == self.current.height
    }

    /// Forgets the operands of the current block, as after a jump.
    pub(crate) fn jump(&mut self)
        ensures { self.new ≡ record self.old { current = jumped_stack } }
    {
        self.types.truncate(self.current.height);
        self.current.after_jump = true;
    }

    /// Begins a block.
    pub(crate) fn enter(&mut self) -> Result<(), AllocError>
        ensures { OnOk result
            (self.new ≡ record { current = no_operands; outer = self.old.current ∷ self.old.outer }) }
    {
        self.outer.push(self.current)?;
        self.current = Frame {
            height: self.types.len(),
            after_jump: false,
        };
        Ok(())
    }

    /// Ends a block, and says whether it had no operands left.
    pub(crate) fn leave(&mut self) -> bool
        ensures exact { result ≡ has_no_operand self.old.current.types }
        ensures outer { (s : BlockStack) (rest : List BlockStack) → self.old.outer ≡ s ∷ rest →
            self.new ≡ record { current = s; outer = rest } }
    {
        let exact = self.types.len() == self.current.height;
        self.types.truncate(self.current.height);
        if let Some(frame) = self.outer.pop() {
            self.current = frame;
        }
        exact
    }
}
