// The functions of the frames of a thread.
ghost use Rattle.std.specs.Prelude.{◌≡◌, IfOk};

use std::alloc::AllocError;
use std::marker::Model;

/// The functions of the frames of a thread, the innermost first. Contracts see them as a list, wherever they lie in memory.
#[derive(Drop)]
pub(crate) struct Frames {
    functions: Vec<u32>,
}

impl Model for Frames {
    ghost use Rattle.std.specs.Prelude.{ℕ, List};

    ghost Value = { List ℕ };

    ghost view = { λ f. f.functions.items };
}

impl Frames {
    pub(crate) fn new(functions: Vec<u32>) -> Frames
        ensures { result ≡ functions.items }
    {
        Frames { functions }
    }

    /// A copy of the list.
    pub(crate) fn list(&self) -> Result<Vec<u32>, AllocError>
        ensures { IfOk result (λ functions. functions.items ≡ self.now) }
    {
        self.functions.clone()
    }
}
