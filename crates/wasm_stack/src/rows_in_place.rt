// An instruction that gives a value in place, of a thread within its limits. Where that wants memory or may pass a limit,
// nothing is done.
ghost use Rattle.std.specs.Prelude.{◌≡◌, IsTrue, false};
ghost use Rattle.wasm_stack.specs.After.{Goes};
ghost use Rattle.wasm_stack.specs.Limits.{ThreadWithin};
ghost use Rattle.wasm_stack.specs.Rows.{got};

use crate::stack::Stack;
use wasm_types::{Slot, Value};

impl<'m> Stack<'m> {
    #[inline(always)]
    pub fn got_in_place(&mut self, value: Option<Value>) -> bool
        requires { ThreadWithin self.old }
        ensures goes { IsTrue result → Goes self.new ≡ got value self.old }
        ensures within { ThreadWithin self.new }
        ensures same { result ≡ false → self.new ≡ self.old }
    {
        match value {
            Some(v) => self.push_within(Slot::of(v)),
            None => false,
        }
    }
}
