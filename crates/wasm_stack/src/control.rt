// Branches, and the ends of levels and frames. What they carry finds its room where it was, so none wants memory.
ghost use Rattle.std.specs.Prelude.{◌≡◌, IfOk, false, slice_get};
ghost use Rattle.wasm_types.specs.Code.{tree, trees};
ghost use Rattle.wasm_stack.specs.Answer.{after_of, way_of};
ghost use Rattle.wasm_stack.specs.View.{chosen_body_entered};
ghost use Rattle.wasm_stack.specs.Control.{branch, branch_if, branch_table, carried_operand, ended_level, jump, jump_out, label_at, resumed_caller, leave_frame, with_carried};
ghost use Rattle.wasm_stack.specs.Thread.{left_frame};

use crate::halt::{Next, Way};
use crate::stack::{Stack, Target};
use std::alloc::AllocError;
use wasm_types::{Instr, Value};

impl<'m> Stack<'m> {
    // The end of the innermost frame, from any of its levels, which leaves its topmost operand or none.
    #[inline(always)]
    fn end_frame(&mut self, carries: bool) -> Way
        ensures { way_of result self.new ≡ with_carried (carried_operand carries self.old) (λ o t. resumed_caller (left_frame t) o) }
    {
        if !carries {
            return if self.leave() { Way::Goes } else { Way::Ends };
        }
        if !self.has_operand() {
            return Way::Sticks;
        }
        if self.leave_with_top() {
            Way::Goes
        } else {
            Way::Ends
        }
    }

    #[inline(always)]
    pub fn return_from(&mut self) -> Way
        ensures { way_of result self.new ≡ leave_frame self.old }
    {
        let carries = self.returns();
        self.end_frame(carries)
    }

    /// The same by a call of its own.
    #[inline(never)]
    pub fn return_out(&mut self) -> Way
        ensures { way_of result self.new ≡ leave_frame self.old }
    {
        self.return_from()
    }

    // A branch out of the innermost level, which is no loop.
    #[inline(always)]
    fn jump_out(&mut self, carries: bool) -> Way
        requires carries { self.old.carries ≡ carries }
        requires loops { self.old.loops ≡ false }
        ensures { way_of result self.new ≡ jump_out self.old }
    {
        if !self.has_outer() {
            return self.end_frame(carries);
        }
        if !carries {
            self.clear();
        } else if !self.keep_top() {
            return Way::Sticks;
        }
        let is_closed = self.close();
        prove!(is_closed);
        Way::Goes
    }

    // A branch to the innermost level.
    #[inline(always)]
    pub(crate) fn jump(&mut self) -> Way
        ensures { way_of result self.new ≡ jump self.old }
    {
        match self.target() {
            Target::Again(body) => {
                self.clear();
                self.go_to(body);
                Way::Goes
            }
            Target::Out(carries) => self.jump_out(carries),
        }
    }

    /// A branch past n levels.
    #[inline(never)]
    pub fn branch(&mut self, n: u32) -> Way
        ensures { way_of result self.new ≡ branch n self.old }
    {
        if !self.past(n) {
            return Way::Sticks;
        }
        self.jump()
    }

    pub fn branch_if(&mut self, n: u32) -> Way
        ensures { way_of result self.new ≡ branch_if n self.old }
    {
        match self.pop() {
            Some(Value::I32(0)) => Way::Goes,
            Some(Value::I32(_)) => self.branch(n),
            _ => Way::Sticks,
        }
    }

    pub fn branch_table(&mut self, labels: &[u32], default: u32) -> Way
        ensures { way_of result self.new ≡ branch_table labels.now default self.old }
    {
        match self.pop() {
            Some(Value::I32(i)) => self.branch(label_at(labels, i, default)),
            _ => Way::Sticks,
        }
    }

    /// A choice, of which this instruction is the opener.
    pub fn choose(
        &mut self,
        opener: &'m Instr,
        on_true: &'m [Instr],
        on_false: &'m [Instr],
    ) -> Result<Next, AllocError>
        ensures { IfOk result (λ a. after_of a self.new ≡ chosen_body_entered (tree opener.now) (trees on_true.now) (trees on_false.now) self.old) }
    {
        match self.pop() {
            Some(Value::I32(0)) => {
                self.open(opener, on_false)?;
                Ok(Next::Going)
            }
            Some(Value::I32(_)) => {
                self.open(opener, on_true)?;
                Ok(Next::Going)
            }
            _ => Ok(Next::Stuck),
        }
    }

    /// The end of a level, or of a frame with its outermost level.
    #[inline(always)]
    pub fn end(&mut self) -> Way
        ensures { way_of result self.new ≡ ended_level self.old }
    {
        if self.close() {
            return Way::Goes;
        }
        self.return_out()
    }
}

// The label at the index, and past the labels the default.
#[inline(always)]
pub(crate) fn label_at(labels: &[u32], i: u32, default: u32) -> u32
    ensures { result ≡ label_at (slice_get labels.now i) default }
{
    match labels.get(i as usize).copied() {
        Some(label) => label,
        None => default,
    }
}
