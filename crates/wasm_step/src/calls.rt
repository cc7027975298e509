// Calls: of the library, of the module's own functions, and through the table.
ghost use Rattle.std.specs.Prelude.{◌≡◌, ℕ, ◌+◌, ◌-◌, ◌<◌, ◌≤◌, [], ◌∷◌, IfOk, IfSome, IsTrue, OnOk, Some, false, length, nat_lt, slice_get};
ghost use Rattle.wasm_types.specs.Code.{tree};
ghost use Rattle.wasm_types.specs.Locals.{zeros};
ghost use Rattle.wasm_types.specs.Modules.{func_type, module_of};
ghost use Rattle.wasm_stack.specs.Answer.{after_of};
ghost use Rattle.wasm_stack.specs.Limits.{ThreadWithin};
ghost use Rattle.wasm_stack.specs.After.{Goes, Sticks, Stops, frame_goes_on, limited_thread};
ghost use Rattle.wasm_step.specs.inside.Wanted.{CallsAsTyped, HasOwnType};
ghost use Rattle.wasm_step.specs.Reduce.{call, call_element, call_indirect, call_library, call_own, reduce_instruction, store_stays};
ghost use Rattle.wasm_step.specs.Strand.{started_above};
ghost use Rattle.wasm_store.specs.Store.{Store};
ghost use Rattle.wasm_stack.specs.Thread.{Thread, arguments, called_function, called_with, has_frame_room, waiting_frame, without_operands};

use guest_module::{Called, Callee, ValidModule, called_at, callee_at};
use std::alloc::AllocError;
use wasm_stack::{Next, Stack};
use wasm_store::Store;
use wasm_types::{
    Declared, FuncType, Instr, Module, Trap, Value, imported_type, is_same_type, result_of,
    type_at, type_of,
};

// A call of a function of the library of this type.
fn call_library(thread: &mut Stack<'_>, typing: &FuncType, index: u32) -> Next
    ensures { after_of result thread.new ≡ call_library index (Some (func_type typing.now)) thread.old }
{
    let n = typing.params.len();
    if !thread.has_arguments(n) {
        return Next::Stuck;
    }
    if thread.has_room_without(n, typing.results.len()) {
        Next::Calling(index, n)
    } else {
        Next::Trapped(Trap::Exhausted)
    }
}

// A call of this function, whose limits are tested before its frame is made.
#[inline(always)]
fn call_typed<'m>(
    thread: &mut Stack<'m>,
    index: u32,
    callee: Callee<'m>,
    typing: &FuncType,
) -> Result<Next, AllocError>
    ensures { IfOk result (λ a. after_of a thread.new ≡ limited_thread (frame_goes_on thread.old (called_function thread.old index callee.entry (func_type typing.now)))) }
{
    let n = typing.params.len();
    if !thread.has_arguments(n) {
        return Ok(Next::Stuck);
    }
    if !can_enter(thread, callee.declared()) {
        return Ok(Next::Trapped(Trap::Exhausted));
    }
    if thread.enter(index, callee, n, result_of(typing))? {
        Ok(Next::Going)
    } else {
        Ok(Next::Stuck)
    }
}

/// Whether a function of the library has this index.
#[inline(always)]
pub(crate) fn is_imported(module: &ValidModule, index: u32) -> bool
    ensures { result ≡ nat_lt index (length (module_of «module».now).imports) }
{
    (index as usize) < module.module().imports.len()
}

/// What comes after a call of the library by a thread within its limits. With no more results than arguments it keeps to them,
/// so these are not tested.
#[inline(never)]
pub(crate) fn library_call(module: &ValidModule, instr: &Instr) -> Option<Next>
    ensures halts { IfSome result (λ n. n ≡ Next.Going → ⊥) }
    ensures calls { IfSome result (λ n. (t : Thread) (g : Store) → ThreadWithin t → module_of «module».now ≡ g.«module»
        → reduce_instruction (tree instr.now) t g ≡ store_stays g (after_of n t)) }
{
    let Instr::CallFunc(index) = instr else {
        return None;
    };
    let typing = imported_type(module.module(), *index as usize)?;
    let n = typing.params.len();
    if typing.results.len() > n {
        return None;
    }
    Some(Next::Calling(*index, n))
}

/// A call of the module's own function in place, where memory and the limits allow its frame. It is kept out of the
/// burst, whose other instructions would find fewer registers.
#[inline(never)]
pub(crate) fn call_in_place<'m>(thread: &mut Stack<'m>, module: &'m ValidModule, index: u32) -> bool
    requires own { length (module_of «module».now).imports ≤ index }
    requires within { ThreadWithin thread.old }
    requires rule { call (module_of «module».now) index thread.old ≡ Stops Sticks → ⊥ }
    ensures goes { IsTrue result → call (module_of «module».now) index thread.old ≡ Goes thread.new }
    ensures within { ThreadWithin thread.new }
    ensures same { result ≡ false → thread.new ≡ thread.old }
{
    let called = own_called(module, index);
    if called.few {
        thread.enter_within(index, called, 0, true)
    } else {
        enter_many(thread, index, called, 0)
    }
}

// The frame of a function below so many operands that go, with values that are copied together.
#[inline(never)]
fn enter_many<'m>(thread: &mut Stack<'m>, index: u32, called: Called<'m>, above: usize) -> bool
    requires within { ThreadWithin thread.old }
    requires enough { above + called.takes ≤ length thread.old.stack }
    ensures entered { IsTrue result → called_with (arguments called.entry.takes (without_operands above thread.old)) called.entry.takes (without_operands above thread.old)
        index called.entry.callee called.entry.gives ≡ Some thread.new }
    ensures within { ThreadWithin thread.new }
    ensures same { result ≡ false → thread.new ≡ thread.old }
{
    thread.enter_within(index, called, above, false)
}

/// A call through the table in place, where it is one of the module's own functions.
#[inline(never)]
pub(crate) fn call_indirect_in_place<'m>(
    thread: &mut Stack<'m>,
    module: &'m ValidModule,
    store: &Store<'m>,
    type_index: u32,
) -> bool
    requires same_module { module_of «module».now ≡ store.now.«module» }
    requires within { ThreadWithin thread.old }
    requires rule { call_indirect type_index store.now thread.old ≡ Stops Sticks → ⊥ }
    ensures goes { IsTrue result → call_indirect type_index store.now thread.old ≡ Goes thread.new }
    ensures within { ThreadWithin thread.new }
    ensures same { result ≡ false → thread.new ≡ thread.old }
{
    let Some(Some(index)) = store.element(thread.last_i32()) else {
        return false;
    };
    if is_imported(module, index) {
        return false;
    }
    let called = own_called(module, index);
    if !has_type(module.module(), &called.callee, type_index) {
        return false;
    }
    if called.few {
        thread.enter_within(index, called, 1, true)
    } else {
        enter_many(thread, index, called, 1)
    }
}

// Whether a frame with these declared locals keeps to the limits.
#[inline(always)]
fn can_enter(thread: &Stack<'_>, declared: &Declared) -> bool
    ensures { result ≡ has_frame_room (length (zeros declared.now)) thread.now }
{
    match declared.count() {
        Some(count) => thread.has_frame_place(count) || thread.has_frame_room(count),
        None => false,
    }
}

/// Whether a handler with these declared locals, and one parameter, keeps to the limits.
pub(crate) fn can_handle(thread: &Stack<'_>, declared: &Declared) -> bool
    ensures { result ≡ has_frame_room (length (zeros declared.now) + 1) thread.now }
{
    match declared.count() {
        Some(count) => thread.has_frame_room(count + 1),
        None => false,
    }
}

/// A new innermost frame of a handler, which has the signal as its argument.
pub(crate) fn handle<'m>(
    thread: &mut Stack<'m>,
    index: u32,
    callee: Callee<'m>,
    signal: u32,
) -> Result<(), AllocError>
    ensures { OnOk result (started_above (Some callee.entry) (waiting_frame thread.old ∷ thread.old.callers) index (Value.I32 signal ∷ []) ≡ Some thread.new) }
{
    thread.push(Value::I32(signal))?;
    let is_in = thread.enter(index, callee, 1, None)?;
    prove!(is_in);
    Ok(())
}

/// A new innermost frame of a function without parameters or a result.
pub(crate) fn call_start<'m>(
    thread: &mut Stack<'m>,
    index: u32,
    callee: Callee<'m>,
) -> Result<(), AllocError>
    ensures { OnOk result (started_above (Some callee.entry) (waiting_frame thread.old ∷ thread.old.callers) index [] ≡ Some thread.new) }
{
    let is_in = thread.enter(index, callee, 0, None)?;
    prove!(is_in);
    Ok(())
}

#[inline(always)]
fn call_own<'m>(
    thread: &mut Stack<'m>,
    module: &'m ValidModule,
    index: u32,
    place: usize,
) -> Result<Next, AllocError>
    ensures { IfOk result (λ a. after_of a thread.new
        ≡ limited_thread (call_own (module_of «module».now) index (slice_get (module_of «module».now).funcs place) thread.old)) }
{
    let Some(callee) = callee_at(module, place) else {
        return Ok(Next::Stuck);
    };
    let Some(typing) = type_at(module.module(), callee.type_index()) else {
        return Ok(Next::Stuck);
    };
    call_typed(thread, index, callee, typing)
}

#[inline(never)]
pub(crate) fn call<'m>(
    thread: &mut Stack<'m>,
    module: &'m ValidModule,
    index: u32,
) -> Result<Next, AllocError>
    ensures { IfOk result (λ a. after_of a thread.new ≡ limited_thread (call (module_of «module».now) index thread.old)) }
{
    let inner = module.module();
    let place = index as usize;
    if place >= inner.imports.len() {
        return call_own(thread, module, index, place - inner.imports.len());
    }
    match imported_type(inner, place) {
        Some(typing) => Ok(call_library(thread, typing, index)),
        None => Ok(Next::Stuck),
    }
}

fn call_element<'m>(
    thread: &mut Stack<'m>,
    module: &'m ValidModule,
    type_index: u32,
    element: Option<Option<u32>>,
) -> Result<Next, AllocError>
    ensures { IfOk result (λ a. after_of a thread.new ≡ limited_thread (call_element (module_of «module».now) type_index element thread.old)) }
{
    let Some(place) = element else {
        return Ok(Next::Trapped(Trap::TableRange));
    };
    let Some(index) = place else {
        return Ok(Next::Trapped(Trap::EmptyElement));
    };
    let inner = module.module();
    let Some(found) = type_of(inner, index) else {
        return Ok(Next::Stuck);
    };
    let Some(wanted) = type_at(inner, type_index) else {
        return Ok(Next::Stuck);
    };
    if !is_same_type(found, wanted) {
        return Ok(Next::Trapped(Trap::TypeDiffers));
    }
    call(thread, module, index)
}

#[inline(never)]
pub(crate) fn call_indirect<'m>(
    thread: &mut Stack<'m>,
    module: &'m ValidModule,
    store: &Store<'m>,
    type_index: u32,
) -> Result<Next, AllocError>
    requires { module_of «module».now ≡ store.now.«module» }
    ensures { IfOk result (λ a. after_of a thread.new ≡ limited_thread (call_indirect type_index store.now thread.old)) }
{
    match thread.pop() {
        Some(Value::I32(i)) => call_element(thread, module, type_index, store.element(i)),
        _ => Ok(Next::Stuck),
    }
}

// The module's own function with this index, which there is.
#[tactic(auto, using(crate::proofs::RuledThreads::called_own, crate::proofs::RuledThreads::called_type))]
#[inline(always)]
fn own_called<'m>(module: &'m ValidModule, index: u32) -> Called<'m>
    requires past { length (module_of «module».now).imports ≤ index }
    requires there { index - length (module_of «module».now).imports < length (module_of «module».now).funcs }
    ensures types { HasOwnType (module_of «module».now) index result.callee }
    ensures few { IsTrue result.few → (result.takes ≤ 4) × (length (zeros result.callee.locals) ≤ 4) }
    ensures calls { (t : Thread) → call (module_of «module».now) index t
        ≡ frame_goes_on t (called_with (arguments result.takes t) result.takes t index result.callee result.gives) }
{
    called_at(module, index as usize - module.module().imports.len())
}

// Whether a function has the type with this index, which mostly is its own.
#[inline(always)]
fn has_type(module: &Module, callee: &Callee<'_>, type_index: u32) -> bool
    ensures { IsTrue result → CallsAsTyped (module_of «module».now) callee.now (slice_get (module_of «module».now).types type_index) }
{
    if callee.type_index() == type_index {
        return true;
    }
    has_equal_type(module, callee, type_index)
}

// Whether it has an equal type.
fn has_equal_type(module: &Module, callee: &Callee<'_>, type_index: u32) -> bool
    ensures { IsTrue result → CallsAsTyped (module_of «module».now) callee.now (slice_get (module_of «module».now).types type_index) }
{
    let Some(typing) = type_at(module, callee.type_index()) else {
        return false;
    };
    match type_at(module, type_index) {
        Some(wanted) => is_same_type(typing, wanted),
        None => false,
    }
}
