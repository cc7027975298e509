// A thread as an owned value: one stack each of operands, labels, locals and frames.
ghost use Rattle.std.specs.Prelude.{◌∷◌, OnErr, ◌≡◌, ◌+◌, ◌-◌, ◌<◌, ◌≤◌, [], ◌++◌, drop, length, IfOk, OnOk, Some, None, if◌then◌else◌, IfSome, IfNone, IsTrue, nat_lt, nat_le, ◌&&◌, false, is_some, map, reverse, slice_get, slice_set, take, true};
ghost use Rattle.wasm_types.specs.Code.{End, Then, Trees, tree, trees};
ghost use Rattle.wasm_types.specs.declared.code.Value.TheVariants.{I32};
ghost use Rattle.wasm_stack.specs.Thread.{HasI32, arguments, closed_level, with_operand, with_todo, without_operands, has_frame_room, has_room, is_end, fits_limits, functions_of, most_frames};
ghost use Rattle.std.specs.Vec.{vec_capacity};
ghost use Rattle.wasm_types.specs.Limits.{most_thread_size};
ghost use Rattle.wasm_stack.specs.Call.{call_sited};
ghost use Rattle.wasm_stack.specs.Limits.{ThreadWithin};
ghost use Rattle.wasm_stack.specs.View.{closed_by, entered_by};
ghost use Rattle.wasm_stack.specs.Target.{IsTarget};

mod frames;

use crate::call::{CallSite, site};
use std::alloc::AllocError;
use std::marker::Model;
use wasm_types::{Instr, MOST_THREAD_SIZE, Slot, ValType, Value};

/// A level around another: the instruction that opened the other, those after it, and how many operands lie below
/// the level.
#[derive(Clone, Copy)]
pub struct StackLevel<'m> {
    opener: &'m Instr,
    todo: &'m [Instr],
    floor: usize,
}

/// A frame: the instructions that are left in its innermost level and how many operands lie below that, where its
/// levels, locals and operands begin, its function, and the type of what it leaves.
#[derive(Clone, Copy)]
pub struct StackFrame<'m> {
    todo: &'m [Instr],
    floor: usize,
    labels_from: usize,
    locals_from: usize,
    bottom: usize,
    func: u32,
    gives: Option<ValType>,
}

/// Where a branch to a level goes on: at these instructions, which begin it again, or after the level, with an operand
/// or without one.
#[derive(Clone, Copy)]
pub enum Target<'m> {
    Again(&'m [Instr]),
    Out(bool),
}

/// A thread.
#[derive(Drop)]
pub struct Stack<'m> {
    here: StackFrame<'m>,
    operands: Vec<Slot>,
    labels: Vec<StackLevel<'m>>,
    locals: Vec<Slot>,
    callers: Vec<StackFrame<'m>>,
    /// With fewer operands than this, one more wants no memory and leaves the size within its limit.
    room: usize,
    /// The same for the frames that wait.
    frames: usize,
}

impl<'m> Model for Stack<'m> {
    ghost use Rattle.std.specs.Coded.{codes};
    ghost use Rattle.wasm_types.specs.Coding.{trees_code};
    ghost use Rattle.wasm_stack.specs.Thread.{Thread};

    ghost Value = { Thread };

    ghost coded = { Prim.hlevel (codes, trees_code) };

    ghost use Rattle.wasm_stack.specs.inside.Stacks.{thread_of, IsStack};

    ghost view = { thread_of };

    ghost invariant = { IsStack };
}

impl<'m> Stack<'m> {
    /// An equal thread.
    pub fn copy(&self) -> Result<Stack<'m>, AllocError>
        ensures { IfOk result (λ s. s ≡ self.now) }
    {
        Ok(Stack {
            here: self.here,
            operands: self.operands.clone()?,
            labels: self.labels.clone()?,
            locals: self.locals.clone()?,
            callers: self.callers.clone()?,
            room: 0,
            frames: 0,
        })
    }

    /// The functions of the frames, the innermost first.
    pub fn functions(&self) -> Result<Vec<u32>, AllocError>
        ensures { IfOk result (λ functions. functions.items ≡ functions_of self.now) }
    {
        let mut functions = Vec::new(*self.operands.allocator());
        functions.push(self.here.func)?;
        push_functions(&mut functions, &self.callers)?;
        Ok(functions)
    }

    /// Whether no instruction is left in the innermost level.
    #[inline(always)]
    pub fn is_at_end(&self) -> bool
        ensures { result ≡ is_end self.now.todo }
    {
        match self.here.todo {
            [] => true,
            [_first, _rest @ ..] => false,
        }
    }

    /// The next instruction of the innermost level.
    #[inline(always)]
    pub fn fetch(&mut self) -> Option<&'m Instr>
        ensures none { IfNone result ((self.old.todo ≡ End) × (self.new ≡ self.old)) }
        ensures some { IfSome result (λ instr. self.old ≡ record self.new { todo = Then (tree instr.now) self.new.todo }) }
    {
        match self.here.todo {
            [] => None,
            [first, rest @ ..] => {
                self.here.todo = rest;
                Some(first)
            }
        }
    }

    /// The innermost level goes on there.
    #[inline(always)]
    pub fn go_to(&mut self, todo: &'m [Instr])
        ensures { self.new ≡ record self.old { todo = trees todo.now } }
    {
        self.here.todo = todo;
    }

    /// The instructions that are left in the innermost level.
    #[inline(always)]
    pub fn todo(&self) -> &'m [Instr]
        ensures { trees result.now ≡ self.now.todo }
    {
        self.here.todo
    }

    /// Where a branch to the innermost level goes on.
    #[inline(always)]
    pub fn target(&self) -> Target<'m>
        ensures { IsTarget result self.now }
    {
        if self.labels.len() <= self.here.labels_from {
            return Target::Out(self.here.gives.is_some());
        }
        match self.labels[self.labels.len() - 1].opener {
            Instr::Loop(_, body) => Target::Again(body),
            Instr::Block(gives, _) | Instr::If(gives, _, _) => Target::Out(gives.is_some()),
            _ => Target::Out(false),
        }
    }

    /// Whether the innermost frame gives its caller an operand.
    pub fn returns(&self) -> bool
        ensures { result ≡ self.now.returns }
    {
        self.here.gives.is_some()
    }

    /// One more operand.
    #[inline(always)]
    pub fn push(&mut self, v: Value) -> Result<(), AllocError>
        ensures { OnOk result (self.new ≡ with_operand self.old v) }
    {
        push_operand(&mut self.operands, Slot::of(v))?;
        Ok(())
    }

    /// The same where there is room for it.
    #[inline(always)]
    pub fn push_within(&mut self, v: Slot) -> bool
        requires { ThreadWithin self.old }
        ensures pushed { IsTrue result → self.new ≡ with_operand self.old v }
        ensures within { ThreadWithin self.new }
        ensures same { result ≡ false → self.new ≡ self.old }
    {
        if self.operands.len() >= self.room {
            return false;
        }
        self.operands.push_reserved(v);
        true
    }

    /// Takes the room that memory and the limits leave.
    #[inline(always)]
    pub fn find_room(&mut self)
        ensures { self.new ≡ self.old }
    {
        self.room = room_of(
            self.labels.len(),
            self.locals.len(),
            self.operands.capacity(),
        );
        self.frames = self.callers.capacity().min(MOST_FRAMES - 1);
    }

    /// The topmost operand of the level, which stays.
    #[inline(always)]
    pub fn top(&self) -> Option<Value>
        ensures some { IfSome result (λ v. self.now.stack ≡ v ∷ drop 1 self.now.stack) }
        ensures none { IfNone result (self.now.stack ≡ []) }
    {
        let height = self.operands.len();
        if height <= self.here.floor {
            return None;
        }
        Some(self.operands[height - 1].value())
    }

    /// The two topmost operands of the level, which stay.
    #[inline(always)]
    pub fn two(&self) -> Option<(Value, Value)>
        ensures some { IfSome result (λ p. self.now.stack ≡ p.1 ∷ (p.0 ∷ drop 2 self.now.stack)) }
        ensures none { IfNone result (length self.now.stack < 2) }
    {
        let height = self.operands.len();
        if height < self.here.floor + 2 {
            return None;
        }
        Some((
            self.operands[height - 2].value(),
            self.operands[height - 1].value(),
        ))
    }

    /// The three topmost operands of the level, which stay.
    #[inline(always)]
    pub fn three(&self) -> Option<(Value, Value, Value)>
        ensures some { IfSome result (λ p. self.now.stack ≡ p.2 ∷ (p.1 ∷ (p.0 ∷ drop 3 self.now.stack))) }
        ensures none { IfNone result (length self.now.stack < 3) }
    {
        let height = self.operands.len();
        if height < self.here.floor + 3 {
            return None;
        }
        Some((
            self.operands[height - 3].value(),
            self.operands[height - 2].value(),
            self.operands[height - 1].value(),
        ))
    }

    /// The value in place of the topmost operand, if there is one.
    #[inline(always)]
    pub fn put_one(&mut self, v: Slot) -> bool
        ensures put { IsTrue result → self.new ≡ record self.old { stack = v ∷ drop 1 self.old.stack } }
        ensures enough { 1 ≤ length self.old.stack → result ≡ true }
        ensures same { result ≡ false → self.new ≡ self.old }
    {
        if !self.has_operand() {
            return false;
        }
        self.replace_one(v);
        true
    }

    /// The value in place of the topmost operand of a level that has one.
    #[inline(always)]
    pub fn replace_one(&mut self, v: Slot)
        requires { 1 ≤ length self.old.stack }
        ensures { self.new ≡ record self.old { stack = v ∷ drop 1 self.old.stack } }
    {
        let _x = self.operands.take_last();
        self.operands.push_reserved(v);
    }

    /// The value in place of the two topmost operands, if there are as many.
    #[inline(always)]
    pub fn put_two(&mut self, v: Slot) -> bool
        ensures put { IsTrue result → self.new ≡ record self.old { stack = v ∷ drop 2 self.old.stack } }
        ensures enough { 2 ≤ length self.old.stack → result ≡ true }
        ensures same { result ≡ false → self.new ≡ self.old }
    {
        if self.operands.len() < self.here.floor + 2 {
            return false;
        }
        self.replace_two(v);
        true
    }

    /// The value in place of the two topmost operands of a level that has as many.
    #[inline(always)]
    pub fn replace_two(&mut self, v: Slot)
        requires { 2 ≤ length self.old.stack }
        ensures { self.new ≡ record self.old { stack = v ∷ drop 2 self.old.stack } }
    {
        let _y = self.operands.take_last();
        let _x = self.operands.take_last();
        self.operands.push_reserved(v);
    }

    /// Without the n topmost operands.
    #[inline(always)]
    pub fn drop_last(&mut self, n: usize)
        requires { n ≤ length self.old.stack }
        ensures { self.new ≡ without_operands n self.old }
    {
        let height = self.operands.len();
        self.operands.truncate(height - n);
    }

    /// Without the topmost operand of a level that has one.
    #[inline(always)]
    pub fn drop_one(&mut self)
        requires { 1 ≤ length self.old.stack }
        ensures { self.new ≡ without_operands 1 self.old }
    {
        let _top = self.operands.take_last();
    }

    /// A local of the innermost frame that it has.
    #[inline(always)]
    pub fn local_at(&self, x: usize) -> Slot
        requires { x < length self.now.locals }
        ensures { slice_get self.now.locals x ≡ Some result }
    {
        self.locals[self.here.locals_from + x]
    }

    /// Whether the level has an operand.
    #[inline(always)]
    pub fn has_operand(&self) -> bool
        ensures some { IsTrue result → 1 ≤ length self.now.stack }
        ensures none { result ≡ false → self.now.stack ≡ [] }
    {
        self.operands.len() > self.here.floor
    }

    /// The topmost operand of a level that has one.
    #[inline(always)]
    pub fn last(&self) -> Slot
        requires { 1 ≤ length self.now.stack }
        ensures { self.now.stack ≡ result ∷ drop 1 self.now.stack }
    {
        self.operands[self.operands.len() - 1]
    }

    /// The number that the topmost operand is, which has 32 bits.
    #[inline(always)]
    pub fn last_i32(&self) -> u32
        requires { HasI32 self.now }
        ensures { self.now.stack ≡ I32 result ∷ drop 1 self.now.stack }
    {
        self.last().as_narrow()
    }

    /// The two topmost operands of a level that has as many.
    #[inline(always)]
    pub fn last_two(&self) -> (Slot, Slot)
        requires { 2 ≤ length self.now.stack }
        ensures { self.now.stack ≡ result.1 ∷ (result.0 ∷ drop 2 self.now.stack) }
    {
        let height = self.operands.len();
        (self.operands[height - 2], self.operands[height - 1])
    }

    /// Whether the innermost frame has a local of this number.
    #[inline(always)]
    pub fn has_local(&self, x: usize) -> bool
        ensures { result ≡ nat_lt x (length self.now.locals) }
    {
        x < self.locals.len() - self.here.locals_from
    }

    /// The topmost operand of the level, if there is one.
    #[inline(always)]
    pub fn pop(&mut self) -> Option<Value>
        ensures none { IfNone result ((self.old.stack ≡ []) × (self.new ≡ self.old)) }
        ensures some { IfSome result (λ v. self.old ≡ with_operand self.new v) }
    {
        if self.operands.len() <= self.here.floor {
            return None;
        }
        let v = self.operands.take_last();
        Some(v.value())
    }

    /// No operand of the level.
    #[inline(always)]
    pub fn clear(&mut self)
        ensures { self.new ≡ record self.old { stack = [] } }
    {
        self.operands.truncate(self.here.floor);
    }

    /// A local of the innermost frame.
    #[inline(always)]
    pub fn local(&self, x: usize) -> Option<Value>
        ensures { result ≡ slice_get self.now.locals x }
    {
        match self.locals[self.here.locals_from..].get(x) {
            Some(v) => Some(v.value()),
            None => None,
        }
    }

    /// A new value of a local, if there is one of that number.
    #[inline(always)]
    pub fn set_local(&mut self, x: usize, v: Slot) -> bool
        ensures value { result ≡ nat_lt x (length self.old.locals) }
        ensures set { IsTrue result → self.new ≡ record self.old { locals = slice_set self.old.locals x v } }
    {
        if !self.has_local(x) {
            return false;
        }
        self.put_local(x, v);
        true
    }

    /// A new value of a local that the innermost frame has.
    #[inline(always)]
    pub fn put_local(&mut self, x: usize, v: Slot)
        requires { x < length self.old.locals }
        ensures { self.new ≡ record self.old { locals = slice_set self.old.locals x v } }
    {
        self.locals[self.here.locals_from + x] = v;
    }

    /// A new innermost level, which this instruction opens.
    pub fn open(&mut self, opener: &'m Instr, body: &'m [Instr]) -> Result<(), AllocError>
        ensures { OnOk result (self.new ≡ entered_by (tree opener.now) (trees body.now) self.old) }
    {
        self.room = one_less(self.room);
        let label = StackLevel {
            opener,
            todo: self.here.todo,
            floor: self.here.floor,
        };
        push_to(&mut self.labels, label)?;
        self.here.todo = body;
        self.here.floor = self.operands.len();
        Ok(())
    }

    /// The same where there is room for it, in a level that is left these. What the thread itself is left stays, so that a
    /// burst can keep at hand what the new level is.
    #[inline(always)]
    pub fn open_within(&mut self, opener: &'m Instr, todo: &'m [Instr]) -> bool
        requires { ThreadWithin self.old }
        ensures opened { IsTrue result → (body : Trees) → with_todo self.new body ≡ entered_by (tree opener.now) body (with_todo self.old (trees todo.now)) }
        ensures within { ThreadWithin self.new }
        ensures same { result ≡ false → self.new ≡ self.old }
    {
        if self.operands.len() >= self.room || self.labels.len() >= self.labels.capacity() {
            return false;
        }
        self.room -= 1;
        self.labels.push_reserved(StackLevel {
            opener,
            todo,
            floor: self.here.floor,
        });
        self.here.floor = self.operands.len();
        true
    }

    /// The same without the topmost operand of the level, which has one.
    #[inline(always)]
    pub fn open_without_top(&mut self, opener: &'m Instr, todo: &'m [Instr]) -> bool
        requires within { ThreadWithin self.old }
        requires some { 1 ≤ length self.old.stack }
        ensures opened { IsTrue result → (body : Trees) → with_todo self.new body ≡ entered_by (tree opener.now) body (without_operands 1 (with_todo self.old (trees todo.now))) }
        ensures within { ThreadWithin self.new }
        ensures same { result ≡ false → self.new ≡ self.old }
    {
        let height = self.operands.len();
        if height >= self.room || self.labels.len() >= self.labels.capacity() {
            return false;
        }
        self.room -= 1;
        let _top = self.operands.take_last();
        self.labels.push_reserved(StackLevel {
            opener,
            todo,
            floor: self.here.floor,
        });
        self.here.floor = height - 1;
        true
    }

    /// Whether there is a level around the innermost.
    #[inline(always)]
    pub fn has_outer(&self) -> bool
        ensures { result ≡ is_some (closed_level self.now) }
    {
        self.labels.len() > self.here.labels_from
    }

    /// The level around the innermost, with the operands of both, if there is one.
    #[inline(always)]
    pub fn close(&mut self) -> bool
        ensures closed { closed_level self.old ≡ (if result then Some self.new else None) }
        ensures same { result ≡ false → self.new ≡ self.old }
        ensures behind { IsTrue result → self.old.loops ≡ false → self.new.todo ≡ self.old.target }
    {
        if self.labels.len() <= self.here.labels_from {
            return false;
        }
        let label = self.labels.take_last();
        self.here.todo = label.todo;
        self.here.floor = label.floor;
        true
    }

    /// The level n levels around the innermost, with the operands of all, if there is one.
    #[inline(always)]
    pub fn past(&mut self, n: u32) -> bool
        ensures { closed_by n self.old ≡ (if result then Some self.new else None) }
    {
        if self.labels.len() - self.here.labels_from < n as usize {
            return false;
        }
        self.past_known(n);
        true
    }

    /// The same of a level that there is.
    #[inline(always)]
    pub fn past_known(&mut self, n: u32)
        requires { closed_by n self.old ≡ None → ⊥ }
        ensures { closed_by n self.old ≡ Some self.new }
    {
        if n == 0 {
            return;
        }
        let around = self.labels.len() - n as usize;
        let label = self.labels[around];
        self.labels.truncate(around);
        self.here.todo = label.todo;
        self.here.floor = label.floor;
    }

    /// The level keeps its topmost operand alone.
    #[inline(always)]
    pub fn keep_top(&mut self) -> bool
        ensures kept { IsTrue result → self.new ≡ record self.old { stack = take 1 self.old.stack } }
        ensures some { IsTrue result → 1 ≤ length self.old.stack }
        ensures none { result ≡ false → self.old.stack ≡ [] }
    {
        let height = self.operands.len();
        if height <= self.here.floor {
            return false;
        }
        let v = self.operands[height - 1];
        self.operands.truncate(self.here.floor);
        self.operands.push_reserved(v);
        true
    }

    /// Whether the level has this many operands.
    pub fn has_arguments(&self, n: usize) -> bool
        ensures { result ≡ is_some (arguments n self.now) }
    {
        self.operands.len() - self.here.floor >= n
    }

    /// The n topmost operands as the arguments of a call of the library, if there are as many.
    pub fn take_site(&mut self, func: u32, n: usize) -> Option<CallSite>
        ensures none { IfNone result ((arguments n self.old ≡ None) × (self.new ≡ self.old)) }
        ensures some { IfSome result (λ s. (call_sited func (arguments n self.old) ≡ Some s) × (self.new ≡ without_operands n self.old)) }
    {
        let height = self.operands.len();
        if height - self.here.floor < n {
            return None;
        }
        let first = height - n;
        let site = site(func, &self.operands[first..]);
        self.operands.truncate(first);
        Some(site)
    }

    /// Whether the thread keeps to the limits with this many more operands, locals or labels.
    #[inline(always)]
    pub fn has_room(&self, more: usize) -> bool
        ensures { result ≡ has_room more self.now }
    {
        keeps_limits(
            self.callers.len(),
            self.operands.len(),
            self.labels.len(),
            self.locals.len(),
            more,
        )
    }

    /// Whether the thread keeps to the limits. Where there is room, that tells it.
    #[inline(always)]
    pub fn is_within(&self) -> bool
        ensures { result ≡ fits_limits self.now }
    {
        if self.operands.len() < self.room && self.callers.len() < MOST_FRAMES {
            return true;
        }
        self.has_room(0)
    }

    /// Whether the thread keeps to the limits without the n topmost operands and with this many more.
    pub fn has_room_without(&self, n: usize, more: usize) -> bool
        requires { n ≤ length self.now.stack }
        ensures { result ≡ has_room more (without_operands n self.now) }
    {
        keeps_limits(
            self.callers.len(),
            self.operands.len() - n,
            self.labels.len(),
            self.locals.len(),
            more,
        )
    }

    /// Whether there is room for a frame and so many locals.
    #[inline(always)]
    pub fn has_frame_place(&self, more: usize) -> bool
        ensures { IsTrue result → has_frame_room more self.now ≡ true }
    {
        more < self.room
            && self.operands.len() < self.room - more
            && self.callers.len() + 1 < MOST_FRAMES
    }

    /// Whether the thread keeps to the limits with one more frame and this many more locals.
    pub fn has_frame_room(&self, more: usize) -> bool
        ensures { result ≡ has_frame_room more self.now }
    {
        keeps_limits(
            self.callers.len() + 1,
            self.operands.len(),
            self.labels.len(),
            self.locals.len(),
            more,
        )
    }
}

fn keeps_limits(frames: usize, operands: usize, labels: usize, locals: usize, more: usize) -> bool
    ensures { result ≡ (nat_lt frames most_frames && nat_le (operands + labels + locals + more) most_thread_size) }
{
    if frames >= MOST_FRAMES
        || operands > MOST_THREAD_SIZE
        || labels > MOST_THREAD_SIZE
        || locals > MOST_THREAD_SIZE
        || more > MOST_THREAD_SIZE
    {
        return false;
    }
    operands + labels + locals + more <= MOST_THREAD_SIZE
}

/// At most so many frames of a thread, all but one of which wait.
pub(crate) const MOST_FRAMES: usize = 512;

/// Room is made for so many operands at a time.
const ROOM: usize = 2048;

#[inline(always)]
fn one_less(n: usize) -> usize
    ensures { result ≡ n - 1 }
{
    n.saturating_sub(1)
}

// How many operands there is room for, by the limit and by their memory.
fn room_of(labels: usize, locals: usize, capacity: usize) -> usize
    ensures place { result ≤ capacity }
    ensures limit { result ≤ most_thread_size - (labels + locals) }
{
    if labels > MOST_THREAD_SIZE || locals > MOST_THREAD_SIZE - labels {
        return 0;
    }
    (MOST_THREAD_SIZE - labels - locals).min(capacity)
}

// One more item. Room is tested here, so that an item for which there is room is put in place without a call.
#[inline(always)]
fn push_to<T: Drop>(items: &mut Vec<T>, item: T) -> Result<(), AllocError>
    ensures ok { OnOk result (items.new.items ≡ items.old.items ++ item ∷ []) }
    ensures err { OnErr result (items.new.items ≡ items.old.items) }
    ensures capacity { vec_capacity items.old ≤ vec_capacity items.new }
{
    if items.len() < items.capacity() {
        items.push_reserved(item);
        return Ok(());
    }
    push_to_full(items, item)
}

#[cold]
#[inline(never)]
fn push_to_full<T: Drop>(items: &mut Vec<T>, item: T) -> Result<(), AllocError>
    ensures ok { OnOk result (items.new.items ≡ items.old.items ++ item ∷ []) }
    ensures err { OnErr result (items.new.items ≡ items.old.items) }
    ensures capacity { vec_capacity items.old ≤ vec_capacity items.new }
{
    items.push(item)?;
    Ok(())
}

// One more operand. Where there is no room for it, room is made for many.
fn push_operand(operands: &mut Vec<Slot>, v: Slot) -> Result<(), AllocError>
    ensures ok { OnOk result (operands.new.items ≡ operands.old.items ++ v ∷ []) }
    ensures err { OnErr result (operands.new.items ≡ operands.old.items) }
    ensures capacity { vec_capacity operands.old ≤ vec_capacity operands.new }
{
    if operands.len() >= operands.capacity() {
        operands.reserve(ROOM)?;
    }
    operands.push_reserved(v);
    Ok(())
}

// The functions of these frames, the last one's first.
fn push_functions(functions: &mut Vec<u32>, frames: &[StackFrame<'_>]) -> Result<(), AllocError>
    ensures { OnOk result (functions.new.items ≡ functions.old.items ++ map (λ f. f.func) (reverse frames.now)) }
{
    let mut left = frames.len();
    'frames: while left > 0 {
        left -= 1;
        functions.push(frames[left].func)?;
    }
    Ok(())
}
