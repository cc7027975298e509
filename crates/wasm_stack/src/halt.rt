// What comes after an instruction, as the code has it.
ghost use Rattle.std.specs.Prelude.{◌≡◌, if◌then◌else◌};
ghost use Rattle.wasm_stack.specs.Answer.{after_of, way_of};
ghost use Rattle.wasm_stack.specs.After.{Goes, Sticks, Stops};
ghost use Rattle.wasm_stack.specs.Thread.{Thread};

use wasm_types::Trap;

/// What comes after an instruction. It is one flat enum and small, since it is made at each instruction.
#[derive(Clone, Copy, Drop)]
pub enum Next {
    Going,
    /// At a call of this function of the library, whose so many arguments are the topmost operands.
    Calling(u32, usize),
    Ended,
    Trapped(Trap),
    /// No rule is for the thread.
    Stuck,
}

/// What comes after a branch, or after the end of a level or of a frame.
#[derive(Clone, Copy, Drop)]
pub enum Way {
    Goes,
    Ends,
    Sticks,
}

impl Way {
    #[inline(always)]
    pub fn next(self) -> Next
        ensures { (t : Thread) → after_of result t ≡ way_of self t }
    {
        match self {
            Way::Goes => Next::Going,
            Way::Ends => Next::Ended,
            Way::Sticks => Next::Stuck,
        }
    }
}

/// Going, unless no rule is for the thread.
#[inline(always)]
pub fn unless_stuck(goes: bool) -> Next
    ensures { (t : Thread) → after_of result t ≡ (if goes then Goes t else Stops Sticks) }
{
    if goes { Next::Going } else { Next::Stuck }
}
