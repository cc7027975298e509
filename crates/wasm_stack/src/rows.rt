// Instructions on operands, locals and numbers. Each that takes an operand before it gives one finds its room there,
// so none of them wants memory.
ghost use Rattle.std.specs.Prelude.{◌≡◌, IfOk, OnOk, false, true, if◌then◌else◌};
ghost use Rattle.wasm_values.specs.Numeric.{is_unary};
ghost use Rattle.wasm_stack.specs.Answer.{after_of};
ghost use Rattle.wasm_stack.specs.Limits.{ThreadWithin};
ghost use Rattle.wasm_stack.specs.After.{Goes, Sticks, Stops};
ghost use Rattle.wasm_stack.specs.Rows.{drop_top, got, local_get, local_set, local_tee, numeric, select};
ghost use Rattle.wasm_stack.specs.Control.{with_result};

use crate::halt::Next;
use crate::stack::Stack;
use std::alloc::AllocError;
use wasm_types::{Slot, Value};
use wasm_values::{Number, binary, is_unary, unary};

impl<'m> Stack<'m> {
    fn numeric_one(&mut self, op: u8) -> Next
        requires { is_unary op ≡ true }
        ensures { after_of result self.new ≡ numeric op self.old }
    {
        let Some(x) = self.top() else {
            return Next::Stuck;
        };
        match unary(op, x) {
            Number::Given(v) => {
                let is_put = self.put_one(Slot::of(v));
                prove!(is_put);
                Next::Going
            }
            Number::Failed(trap) => Next::Trapped(trap),
            Number::Missing => Next::Stuck,
        }
    }

    fn numeric_two(&mut self, op: u8) -> Next
        requires { is_unary op ≡ false }
        ensures { after_of result self.new ≡ numeric op self.old }
    {
        let Some((x, y)) = self.two() else {
            return Next::Stuck;
        };
        match binary(op, x, y) {
            Number::Given(v) => {
                let is_put = self.put_two(Slot::of(v));
                prove!(is_put);
                Next::Going
            }
            Number::Failed(trap) => Next::Trapped(trap),
            Number::Missing => Next::Stuck,
        }
    }

    pub fn numeric(&mut self, op: u8) -> Next
        ensures { after_of result self.new ≡ numeric op self.old }
    {
        if is_unary(op) {
            return self.numeric_one(op);
        }
        self.numeric_two(op)
    }

    #[inline(always)]
    pub fn drop_top(&mut self) -> bool
        ensures after { (if result then Goes self.new else Stops Sticks) ≡ drop_top self.old }
        ensures within { ThreadWithin self.old → ThreadWithin self.new }
        ensures same { result ≡ false → self.new ≡ self.old }
    {
        match self.pop() {
            Some(_) => true,
            None => false,
        }
    }

    #[inline(always)]
    pub fn select(&mut self) -> bool
        ensures after { (if result then Goes self.new else Stops Sticks) ≡ select self.old }
        ensures within { ThreadWithin self.old → ThreadWithin self.new }
        ensures same { result ≡ false → self.new ≡ self.old }
    {
        let Some((_first, second, condition)) = self.three() else {
            return false;
        };
        let Value::I32(x) = condition else {
            return false;
        };
        if x != 0 {
            self.drop_last(2);
            return true;
        }
        self.drop_one();
        let is_put = self.put_two(Slot::of(second));
        prove!(is_put);
        true
    }

    /// What is given goes onto the operands.
    pub fn give(&mut self, value: Option<Value>) -> Result<(), AllocError>
        ensures { OnOk result (self.new ≡ with_result value self.old) }
    {
        if let Some(v) = value {
            self.push(v)?;
        }
        Ok(())
    }

    /// A value that was read goes onto the operands.
    #[inline(always)]
    pub fn got(&mut self, value: Option<Value>) -> Result<Next, AllocError>
        ensures { IfOk result (λ n. after_of n self.new ≡ got value self.old) }
    {
        match value {
            Some(v) => {
                self.push(v)?;
                Ok(Next::Going)
            }
            None => Ok(Next::Stuck),
        }
    }

    #[inline(always)]
    pub fn local_get(&mut self, x: u32) -> Result<Next, AllocError>
        ensures { IfOk result (λ n. after_of n self.new ≡ local_get x self.old) }
    {
        let value = self.local(x as usize);
        self.got(value)
    }

    #[inline(always)]
    pub fn local_set(&mut self, x: u32) -> bool
        ensures after { (if result then Goes self.new else Stops Sticks) ≡ local_set x self.old }
        ensures within { ThreadWithin self.old → ThreadWithin self.new }
        ensures same { result ≡ false → self.new ≡ self.old }
    {
        if !self.local_tee(x) {
            return false;
        }
        self.drop_one();
        true
    }

    #[inline(always)]
    pub fn local_tee(&mut self, x: u32) -> bool
        ensures after { (if result then Goes self.new else Stops Sticks) ≡ local_tee x self.old }
        ensures within { ThreadWithin self.old → ThreadWithin self.new }
        ensures same { result ≡ false → self.new ≡ self.old }
    {
        if !self.has_local(x as usize) || !self.has_operand() {
            return false;
        }
        let v = self.last();
        let is_set = self.set_local(x as usize, v);
        prove!(is_set);
        true
    }
}
