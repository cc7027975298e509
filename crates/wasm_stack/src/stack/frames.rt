// Frames: a thread's start, calls of its functions, and the ends of these.
ghost use Rattle.std.specs.Prelude.{◌≡◌, ◌+◌, ◌-◌, ◌≤◌, [], ◌++◌, length, IfOk, OnOk, Some, None, if◌then◌else◌, IsTrue, false, take};
ghost use Rattle.wasm_stack.specs.Thread.{arguments, function_at_start, called_with, left_frame, without_operands};
ghost use Rattle.wasm_types.specs.Limits.{most_thread_size};
ghost use Rattle.wasm_types.specs.Locals.{zeros};
ghost use Rattle.std.specs.Vec.{vec_capacity};
ghost use Rattle.wasm_stack.specs.Limits.{ThreadWithin};
ghost use Rattle.wasm_stack.specs.After.{Ends, Goes, Stops};
ghost use Rattle.wasm_stack.specs.Control.{leave_with_top};

use super::{Stack, StackFrame, push_to};
use guest_module::{Called, Callee};
use std::alloc::AllocError;
use wasm_types::{MOST_THREAD_SIZE, Slot, ValType};

impl<'m> Stack<'m> {
    /// A function at its start, with these arguments.
    pub fn start(
        index: u32,
        callee: Callee<'m>,
        arguments: Vec<Slot>,
        gives: Option<ValType>,
    ) -> Result<Stack<'m>, AllocError>
        ensures { IfOk result (λ s. s ≡ function_at_start [] index callee.entry.body (arguments.items ++ zeros callee.entry.locals) gives) }
    {
        let alloc = *arguments.allocator();
        let mut locals = arguments;
        callee.declared().append(&mut locals)?;
        Ok(Stack {
            here: StackFrame {
                todo: callee.body(),
                floor: 0,
                labels_from: 0,
                locals_from: 0,
                bottom: 0,
                func: index,
                gives,
            },
            operands: Vec::new(alloc),
            labels: Vec::new(alloc),
            locals,
            callers: Vec::new(alloc),
            room: 0,
            frames: 0,
        })
    }

    /// A new innermost frame of this function, whose locals begin with the n topmost operands, if there
    /// are as many.
    #[inline(always)]
    pub fn enter(
        &mut self,
        index: u32,
        callee: Callee<'m>,
        n: usize,
        gives: Option<ValType>,
    ) -> Result<bool, AllocError>
        ensures { IfOk result (λ is_in. called_with (arguments n self.old) n self.old index callee.entry gives ≡ (if is_in then Some self.new else None)) }
    {
        let height = self.operands.len();
        if height - self.here.floor < n {
            return Ok(false);
        }
        let first = height - n;
        let locals_from = self.locals.len();
        self.room = 0;
        append_all(&mut self.locals, &self.operands[first..])?;
        callee.declared().append(&mut self.locals)?;
        push_to(&mut self.callers, self.here)?;
        self.operands.truncate(first);
        self.here.todo = callee.body();
        self.here.floor = first;
        self.here.labels_from = self.labels.len();
        self.here.locals_from = locals_from;
        self.here.bottom = first;
        self.here.func = index;
        self.here.gives = gives;
        self.find_room();
        Ok(true)
    }

    /// The same where memory is reserved for the frame and the limits allow it, below so many operands that go, of a level that
    /// has as many and the arguments. With `few`, at most four values are copied at a time, one by one.
    #[inline(always)]
    pub fn enter_within(&mut self, index: u32, called: Called<'m>, above: usize, few: bool) -> bool
        requires within { ThreadWithin self.old }
        requires enough { above + called.takes ≤ length self.old.stack }
        requires few { IsTrue few → (called.takes ≤ 4) × (length (zeros called.callee.locals) ≤ 4) }
        ensures entered { IsTrue result → called_with (arguments called.entry.takes (without_operands above self.old)) called.entry.takes (without_operands above self.old)
            index called.entry.callee called.entry.gives ≡ Some self.new }
        ensures within { ThreadWithin self.new }
        ensures same { result ≡ false → self.new ≡ self.old }
    {
        let n = called.takes;
        let Some(starts) = called.callee.declared().starts() else {
            return false;
        };
        let height = self.operands.len() - above;
        let locals_from = self.locals.len();
        let most = room_before(self.room, self.labels.len(), locals_from, few);
        if most < height + starts.len()
            || self.locals.capacity() - locals_from < n + starts.len()
            || self.callers.len() >= self.frames
        {
            return false;
        }
        let first = height - n;
        self.callers.push_reserved(self.here);
        self.here.todo = called.callee.body();
        self.here.floor = first;
        self.here.labels_from = self.labels.len();
        self.here.locals_from = locals_from;
        self.here.bottom = first;
        self.here.func = index;
        self.here.gives = called.gives;
        self.room = room_after(most, n + starts.len(), self.operands.capacity(), few);
        append_reserved(&mut self.locals, &self.operands[first..height], few);
        append_reserved(&mut self.locals, starts, few);
        self.operands.truncate(first);
        true
    }

    /// The frame that waits for the innermost, if there is one.
    #[inline(always)]
    pub fn leave(&mut self) -> bool
        ensures left { left_frame self.old ≡ (if result then Some self.new else None) }
        ensures same { result ≡ false → self.new ≡ self.old }
    {
        match self.callers.pop() {
            Some(held) => {
                let left = self.here;
                self.here = held;
                self.operands.truncate(left.bottom);
                self.labels.truncate(left.labels_from);
                self.locals.truncate(left.locals_from);
                true
            }
            None => false,
        }
    }

    /// The same with the topmost operand of the level, which has one.
    #[inline(always)]
    pub fn leave_with_top(&mut self) -> bool
        requires { 1 ≤ length self.old.stack }
        ensures left { leave_with_top self.old ≡ (if result then Goes self.new else Stops Ends) }
        ensures same { result ≡ false → self.new ≡ self.old }
    {
        let v = self.operands[self.operands.len() - 1];
        match self.callers.pop() {
            Some(held) => {
                let left = self.here;
                self.here = held;
                self.operands.truncate(left.bottom);
                self.operands.push_reserved(v);
                self.labels.truncate(left.labels_from);
                self.locals.truncate(left.locals_from);
                true
            }
            None => false,
        }
    }
}

// How many operands a call finds room for: so many as the thread knows of, if it takes few values, and else what the limit leaves.
#[inline(always)]
fn room_before(room: usize, labels: usize, locals: usize, few: bool) -> usize
    requires { room ≤ most_thread_size - (labels + locals) }
    ensures limit { result ≤ most_thread_size - (labels + locals) }
    ensures few { IsTrue few → result ≤ room }
{
    if few {
        return room;
    }
    MOST_THREAD_SIZE
        .saturating_sub(labels)
        .saturating_sub(locals)
}

// How many it leaves, if it takes so many. With few values these come off what the thread knows of, until that is found anew.
#[inline(always)]
fn room_after(most: usize, taken: usize, capacity: usize, few: bool) -> usize
    requires enough { taken ≤ most }
    requires place { IsTrue few → most ≤ capacity }
    ensures limit { result ≤ most - taken }
    ensures place { result ≤ capacity }
{
    if few {
        return most - taken;
    }
    (most - taken).min(capacity)
}

#[inline(always)]
fn append_all(items: &mut Vec<Slot>, more: &[Slot]) -> Result<(), AllocError>
    ensures ok { OnOk result (items.new.items ≡ items.old.items ++ more.now) }
    ensures kept { take (length items.old.items) items.new.items ≡ items.old.items }
{
    if items.capacity() - items.len() < more.len() {
        items.extend_from_slice(more)?;
        return Ok(());
    }
    for item in more {
        items.push_reserved(*item);
    }
    Ok(())
}

/// A copy is made in pieces of so many values: what is far larger the C library copies by a string instruction, which is
/// no faster, and which valgrind counts for each byte.
const COPIED_PIECE: usize = 64;

// These values after the others, for which there is room.
#[inline(always)]
fn append_reserved(items: &mut Vec<Slot>, more: &[Slot], few: bool)
    requires room { length items.old.items + length more.now ≤ vec_capacity items.old }
    requires few { IsTrue few → length more.now ≤ 4 }
    ensures items { items.new.items ≡ items.old.items ++ more.now }
    ensures capacity { vec_capacity items.old ≤ vec_capacity items.new }
{
    if few {
        append_few(items, more);
    } else {
        append_pieces(items, more);
    }
}

// Four values at most, without a loop, which would take registers.
#[inline(always)]
fn append_few(items: &mut Vec<Slot>, more: &[Slot])
    requires room { length items.old.items + length more.now ≤ vec_capacity items.old }
    requires few { length more.now ≤ 4 }
    ensures items { items.new.items ≡ items.old.items ++ more.now }
    ensures capacity { vec_capacity items.old ≤ vec_capacity items.new }
{
    match more {
        [] => {}
        [first] => items.push_reserved(*first),
        [first, second, rest @ ..] => {
            items.push_reserved(*first);
            items.push_reserved(*second);
            append_two(items, rest);
        }
    }
}

// The same of two at most.
#[inline(always)]
fn append_two(items: &mut Vec<Slot>, more: &[Slot])
    requires room { length items.old.items + length more.now ≤ vec_capacity items.old }
    requires few { length more.now ≤ 2 }
    ensures items { items.new.items ≡ items.old.items ++ more.now }
    ensures capacity { vec_capacity items.old ≤ vec_capacity items.new }
{
    match more {
        [] => {}
        [first] => items.push_reserved(*first),
        [first, second] => {
            items.push_reserved(*first);
            items.push_reserved(*second);
        }
        _ => unreachable!(),
    }
}

#[inline(never)]
fn append_pieces(items: &mut Vec<Slot>, more: &[Slot])
    requires { length items.old.items + length more.now ≤ vec_capacity items.old }
    ensures items { items.new.items ≡ items.old.items ++ more.now }
    ensures capacity { vec_capacity items.old ≤ vec_capacity items.new }
{
    let mut rest = more;
    while rest.len() > 0 {
        let n = rest.len().min(COPIED_PIECE);
        let copied = items.extend_from_slice(&rest[..n]);
        let is_ok = copied.is_ok();
        prove!(is_ok);
        rest = &rest[n..];
    }
}
