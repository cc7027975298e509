// Levels that open in place, of a thread within its limits, and branches that have a rule.
ghost use Rattle.std.specs.Prelude.{◌≡◌, IsTrue, false};
ghost use Rattle.wasm_types.specs.Code.{tree, trees};
ghost use Rattle.wasm_stack.specs.Answer.{way_of};
ghost use Rattle.wasm_stack.specs.Limits.{ThreadWithin};
ghost use Rattle.wasm_stack.specs.View.{chosen_body_entered};
ghost use Rattle.wasm_stack.specs.After.{Goes, Sticks, Stops};
ghost use Rattle.wasm_stack.specs.Thread.{with_todo};
ghost use Rattle.wasm_stack.specs.Control.{branch, branch_if, branch_table, jump};

use crate::control::label_at;
use crate::halt::Way;
use crate::stack::{Stack, Target};
use wasm_types::Instr;

impl<'m> Stack<'m> {
    /// A choice that has a rule, of which this instruction is the opener, in a level that is left these.
    #[inline(always)]
    pub fn choose_in_place(
        &mut self,
        opener: &'m Instr,
        on_true: &'m [Instr],
        on_false: &'m [Instr],
        todo: &mut &'m [Instr],
    ) -> bool
        requires within { ThreadWithin self.old }
        requires rule { chosen_body_entered (tree opener.now) (trees on_true.now) (trees on_false.now) (with_todo self.old (trees todo.old.now)) ≡ Stops Sticks → ⊥ }
        ensures goes { IsTrue result → Goes (with_todo self.new (trees todo.new.now))
            ≡ chosen_body_entered (tree opener.now) (trees on_true.now) (trees on_false.now) (with_todo self.old (trees todo.old.now)) }
        ensures within { ThreadWithin self.new }
        ensures same { result ≡ false → self.new ≡ self.old }
        ensures same_todo { result ≡ false → trees todo.new.now ≡ trees todo.old.now }
    {
        let x = self.last_i32();
        if !self.open_without_top(opener, *todo) {
            return false;
        }
        *todo = if x == 0 { on_false } else { on_true };
        true
    }

    // A branch to the innermost level, if that is a loop.
    #[inline(always)]
    fn jump_in_place(&mut self) -> bool
        ensures goes { IsTrue result → Goes self.new ≡ jump self.old }
        ensures same { result ≡ false → self.new ≡ self.old }
    {
        match self.target() {
            Target::Again(body) => {
                self.clear();
                self.go_to(body);
                true
            }
            Target::Out(_) => false,
        }
    }

    /// A branch past n levels, if the condition is not 0, which has a rule.
    #[inline(always)]
    pub fn branch_if_in_place(&mut self, n: u32) -> Way
        requires { branch_if n self.old ≡ Stops Sticks → ⊥ }
        ensures { way_of result self.new ≡ branch_if n self.old }
    {
        let x = self.last_i32();
        self.drop_one();
        if x == 0 || n == 0 && self.jump_in_place() {
            return Way::Goes;
        }
        self.branch_in_place(n)
    }

    /// A branch to one of these labels, which has a rule.
    #[inline(always)]
    pub fn branch_table_in_place(&mut self, labels: &[u32], default: u32) -> Way
        requires { branch_table labels.now default self.old ≡ Stops Sticks → ⊥ }
        ensures { way_of result self.new ≡ branch_table labels.now default self.old }
    {
        let i = self.last_i32();
        self.drop_one();
        self.branch_in_place(label_at(labels, i, default))
    }

    // A branch past n levels, which has a rule.
    #[tactic(auto, using(crate::proofs::LevelEnds::branch_by))]
    #[inline(never)]
    fn branch_in_place(&mut self, n: u32) -> Way
        requires { branch n self.old ≡ Stops Sticks → ⊥ }
        ensures { way_of result self.new ≡ branch n self.old }
    {
        self.past_known(n);
        self.jump()
    }
}
