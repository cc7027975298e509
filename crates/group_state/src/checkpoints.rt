// Where a group stood before, so that it need not begin again to go back.
ghost use Rattle.std.specs.Prelude.{◌≡◌, ◌≤◌, ◌∷◌, [], Contains, IfSome};
ghost use Rattle.group_state.specs.inside.Stands.{KeepsStands, KeepsCheckpoints};

use crate::stand::Stand;
use std::alloc::{AllocError, Global};

// At most so many are kept, the beginning among them.
const MOST_CHECKPOINTS: usize = 8;

// So many events lie between two of them at first, and twice as many each time that there would be too many.
const FIRST_STRIDE: u64 = 256;

/// Where a group stood at positions after the beginning, in their order. Each is a multiple of the stride, and so is the next
/// one, at which the group has not been.
#[derive(Drop)]
pub(crate) struct Checkpoints<'m, 'a> {
    stride: u64,
    next: u64,
    pub stands: Vec<Stand<'m, 'a>>,
}

impl<'m, 'a> Checkpoints<'m, 'a> {
    /// None so far.
    pub(crate) fn new(alloc: Global) -> Checkpoints<'m, 'a>
        ensures { result.stands.items ≡ [] }
    {
        Checkpoints {
            stride: FIRST_STRIDE,
            next: FIRST_STRIDE,
            stands: Vec::new(alloc),
        }
    }

    /// Keeps where the group is, if it is at the next checkpoint.
    pub(crate) fn keep(&mut self, alloc: Global, here: &Stand<'m, 'a>) -> Result<(), AllocError>
        ensures { KeepsStands self.old.stands.items here.now self.new.stands.items }
    {
        if here.at != self.next {
            return Ok(());
        }
        self.make_room();
        let copy = here.copy(alloc)?;
        self.stands.push(copy)?;
        self.next = self.next.saturating_add(self.stride);
        Ok(())
    }

    // If one more would be too many, the stride is doubled, and what is no multiple of it is dropped. The next one is then at
    // eight strides, so it is a multiple of the doubled one.
    fn make_room(&mut self)
        ensures { KeepsCheckpoints self.old.stands.items self.new.stands.items }
    {
        if self.stands.len() < MOST_CHECKPOINTS - 1 {
            return;
        }
        let stride = self.stride.saturating_mul(2);
        self.stride = stride;
        self.stands.retain(|stand| stand.at.is_multiple_of(stride));
    }

    /// The last of them that is not past this position.
    pub(crate) fn nearest(&self, position: u64) -> Option<&Stand<'m, 'a>>
        ensures among { IfSome result (λ stand. Contains self.now.stands.items stand.now) }
        ensures at { IfSome result (λ stand. stand.now.at ≤ position) }
    {
        for i in (0..self.stands.len()).rev() {
            let stand = &self.stands[i];
            if stand.at <= position {
                return Some(stand);
            }
        }
        None
    }
}
