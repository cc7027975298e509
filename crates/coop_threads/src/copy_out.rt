// Copies that may want memory.
ghost use Rattle.std.specs.Prelude.{◌≡◌, IfOk};

use std::alloc::AllocError;

/// A type whose values can be copied.
pub trait CopyOut: Sized {
    /// An equal value.
    fn copy_out(&self) -> Result<Self, AllocError>
        ensures { IfOk result (λ copy. copy ≡ self.now) };
}
