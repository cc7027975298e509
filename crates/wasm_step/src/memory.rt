// Instructions on globals and on the memory.
ghost use Rattle.std.specs.Prelude.{◌≡◌, ℕ, ◌+◌, IfOk, IfSome, IsTrue, None, OnOk, Some, false, if◌then◌else◌};
ghost use Rattle.wasm_types.specs.declared.code.Value.TheVariants.{I32, I64};
ghost use Rattle.wasm_values.specs.Access.{load_width, store_width};
ghost use Rattle.wasm_stack.specs.Thread.{HasI32};
ghost use Rattle.wasm_step.specs.inside.Accesses.{Loads, Stores};
ghost use Rattle.guest_memory.specs.LittleEndian.{IsWidth};
ghost use Rattle.wasm_stack.specs.Answer.{after_of};
ghost use Rattle.wasm_stack.specs.Limits.{ThreadWithin};
ghost use Rattle.wasm_stack.specs.After.{Goes, Sticks, Stops};
ghost use Rattle.wasm_step.specs.Reduce.{global_get, global_set, grow_answer, store_stays, load, memory_grow, memory_size, write, write_at};

use guest_memory::Memory;
use std::alloc::AllocError;
use wasm_stack::{Next, Stack};
use wasm_store::Store;
use wasm_types::{Slot, Trap, Value};
use wasm_values::{bits, load_value, load_width, store_width};

pub(crate) fn global_get(
    thread: &mut Stack<'_>,
    store: &Store<'_>,
    x: u32,
) -> Result<Next, AllocError>
    ensures { IfOk result (λ n. after_of n thread.new ≡ global_get x store.now thread.old) }
{
    let value = store.global(x);
    thread.got(value)
}

#[inline(always)]
pub(crate) fn global_set(thread: &mut Stack<'_>, store: &mut Store<'_>, x: u32) -> bool
    ensures after { store_stays store.new (if result then Goes thread.new else Stops Sticks) ≡ global_set x store.old thread.old }
    ensures within { ThreadWithin thread.old → ThreadWithin thread.new }
    ensures same { result ≡ false → thread.new ≡ thread.old }
    ensures store { result ≡ false → store.new ≡ store.old }
{
    let Some(v) = thread.top() else {
        return false;
    };
    if !store.set_global(x as usize, v) {
        return false;
    }
    thread.drop_one();
    true
}

#[inline(never)]
pub(crate) fn load(thread: &mut Stack<'_>, store: &Store<'_>, op: u8, offset: u32) -> Next
    ensures { after_of result thread.new ≡ load op offset store.now.memory thread.old }
{
    let Some(Value::I32(base)) = thread.top() else {
        return Next::Stuck;
    };
    let Some(width) = load_width(op) else {
        return Next::Stuck;
    };
    let Some(n) = store.memory().load(address(base, offset), width) else {
        return Next::Trapped(Trap::MemoryRange);
    };
    let Some(v) = load_value(op, n) else {
        return Next::Stuck;
    };
    let is_put = thread.put_one(v);
    prove!(is_put);
    Next::Going
}

#[tactic(auto, using(crate::proofs::Accesses::load_by, crate::proofs::InPlace::within_one))]
#[inline(always)]
pub(crate) fn load_in_place(thread: &mut Stack<'_>, store: &Store<'_>, op: u8, offset: u32) -> bool
    requires within { ThreadWithin thread.old }
    requires address { HasI32 thread.old }
    ensures goes { IsTrue result → Goes thread.new ≡ load op offset store.now.memory thread.old }
    ensures within { ThreadWithin thread.new }
    ensures same { result ≡ false → thread.new ≡ thread.old }
{
    let base = thread.last_i32();
    let Some(v) = loaded(store.memory(), op, address(base, offset)) else {
        return false;
    };
    thread.replace_one(v);
    true
}

// The operand that a load reads. The width stands in each arm, so that the opcode is looked at once.
#[tactic(auto, using(crate::proofs::Accesses::loads_as), unfolding(wasm_values::specs::Access::load_width))]
#[inline(always)]
fn loaded(memory: &Memory, op: u8, addr: u64) -> Option<Slot>
    ensures { IfSome result (λ v. Loads op addr memory.now v) }
{
    match op {
        0x28 => loaded_by(memory, 0x28, addr, 4),
        0x29 => loaded_by(memory, 0x29, addr, 8),
        0x2C => loaded_by(memory, 0x2C, addr, 1),
        0x2D => loaded_by(memory, 0x2D, addr, 1),
        0x2E => loaded_by(memory, 0x2E, addr, 2),
        0x2F => loaded_by(memory, 0x2F, addr, 2),
        0x30 => loaded_by(memory, 0x30, addr, 1),
        0x31 => loaded_by(memory, 0x31, addr, 1),
        0x32 => loaded_by(memory, 0x32, addr, 2),
        0x33 => loaded_by(memory, 0x33, addr, 2),
        0x34 => loaded_by(memory, 0x34, addr, 4),
        0x35 => loaded_by(memory, 0x35, addr, 4),
        _ => None,
    }
}

// The operand of a load of so many bytes.
#[inline(always)]
fn loaded_by(memory: &Memory, op: u8, addr: u64, width: u32) -> Option<Slot>
    requires width { IsWidth width }
    requires reads { load_width op ≡ Some width }
    ensures { IfSome result (λ v. Loads op addr memory.now v) }
{
    let n = memory.load(addr, width)?;
    load_value(op, n)
}

#[inline(always)]
pub(crate) fn write_in_place(
    thread: &mut Stack<'_>,
    store: &mut Store<'_>,
    op: u8,
    offset: u32,
) -> Result<bool, AllocError>
    requires within { ThreadWithin thread.old }
    requires rule { (write op offset store.old thread.old).after ≡ Stops Sticks → ⊥ }
    ensures goes { IfOk result (λ went. IsTrue went → write op offset store.old thread.old ≡ store_stays store.new (Goes thread.new)) }
    ensures within { OnOk result (ThreadWithin thread.new) }
    ensures same { IfOk result (λ went. went ≡ false → thread.new ≡ thread.old) }
    ensures store { IfOk result (λ went. went ≡ false → store.new ≡ store.old) }
{
    let (base, v) = thread.last_two();
    let base = base.as_narrow();
    if !stored(store, op, address(base, offset), v)? {
        return Ok(false);
    }
    thread.drop_one();
    thread.drop_one();
    Ok(true)
}

// Whether a store wrote its operand. The width stands in each arm, as a load's does.
#[tactic(auto, unfolding(wasm_values::specs::Access::store_width))]
#[inline(always)]
fn stored(store: &mut Store<'_>, op: u8, addr: u64, v: Slot) -> Result<bool, AllocError>
    requires { store_width op v ≡ None → ⊥ }
    ensures goes { IfOk result (λ went. IsTrue went → Stores op addr v store.old store.new) }
    ensures same { IfOk result (λ went. went ≡ false → store.new ≡ store.old) }
{
    match op {
        0x36 => stored_i32(store, op, 0x36, addr, v, 4),
        0x37 => stored_i64(store, op, 0x37, addr, v, 8),
        0x3A => stored_i32(store, op, 0x3A, addr, v, 1),
        0x3B => stored_i32(store, op, 0x3B, addr, v, 2),
        0x3C => stored_i64(store, op, 0x3C, addr, v, 1),
        0x3D => stored_i64(store, op, 0x3D, addr, v, 2),
        0x3E => stored_i64(store, op, 0x3E, addr, v, 4),
        _ => Ok(false),
    }
}

// The same of 32 bits, of which so many bytes are written. `k` is the opcode as a literal.
#[tactic(auto, using(crate::proofs::Accesses::stored_i32, crate::proofs::Accesses::stores_by))]
#[inline(always)]
fn stored_i32(
    store: &mut Store<'_>,
    op: u8,
    k: u8,
    addr: u64,
    v: Slot,
    width: u32,
) -> Result<bool, AllocError>
    requires width { IsWidth width }
    requires same { op ≡ k }
    requires rule { store_width op v ≡ None → ⊥ }
    requires writes { (x : ℕ) → store_width k (I32 x) ≡ Some width }
    requires only { (x : ℕ) → store_width k (I64 x) ≡ None }
    ensures goes { IfOk result (λ went. IsTrue went → Stores op addr v store.old store.new) }
    ensures same { IfOk result (λ went. went ≡ false → store.new ≡ store.old) }
{
    store.write(addr, width, u64::from(v.as_narrow()))
}

// The same of 64 bits.
#[tactic(auto, using(crate::proofs::Accesses::stored_i64, crate::proofs::Accesses::stores_by))]
#[inline(always)]
fn stored_i64(
    store: &mut Store<'_>,
    op: u8,
    k: u8,
    addr: u64,
    v: Slot,
    width: u32,
) -> Result<bool, AllocError>
    requires width { IsWidth width }
    requires same { op ≡ k }
    requires rule { store_width op v ≡ None → ⊥ }
    requires writes { (x : ℕ) → store_width k (I64 x) ≡ Some width }
    requires only { (x : ℕ) → store_width k (I32 x) ≡ None }
    ensures goes { IfOk result (λ went. IsTrue went → Stores op addr v store.old store.new) }
    ensures same { IfOk result (λ went. went ≡ false → store.new ≡ store.old) }
{
    store.write(addr, width, v.as_long())
}

fn write_at(
    thread: &mut Stack<'_>,
    store: &mut Store<'_>,
    width: Option<u32>,
    addr: u64,
    bits: u64,
) -> Result<Next, AllocError>
    requires { IfSome width (λ w. IsWidth w) }
    ensures after { IfOk result (λ n. after_of n thread.new ≡ (write_at width addr bits store.old thread.old).after) }
    ensures store { OnOk result (store.new ≡ (write_at width addr bits store.old thread.old).store) }
{
    let Some(width) = width else {
        return Ok(Next::Stuck);
    };
    if store.write(addr, width, bits)? {
        Ok(Next::Going)
    } else {
        Ok(Next::Trapped(Trap::MemoryRange))
    }
}

pub(crate) fn write(
    thread: &mut Stack<'_>,
    store: &mut Store<'_>,
    op: u8,
    offset: u32,
) -> Result<Next, AllocError>
    ensures after { IfOk result (λ n. after_of n thread.new ≡ (write op offset store.old thread.old).after) }
    ensures store { OnOk result (store.new ≡ (write op offset store.old thread.old).store) }
{
    let Some(v) = thread.pop() else {
        return Ok(Next::Stuck);
    };
    let Some(Value::I32(base)) = thread.pop() else {
        return Ok(Next::Stuck);
    };
    write_at(
        thread,
        store,
        store_width(op, v),
        address(base, offset),
        bits(Some(v)),
    )
}

pub(crate) fn memory_size(thread: &mut Stack<'_>, store: &Store<'_>) -> Result<Next, AllocError>
    ensures { IfOk result (λ n. after_of n thread.new ≡ memory_size store.now.memory thread.old) }
{
    thread.push(Value::I32(store.memory().size()))?;
    Ok(Next::Going)
}

pub(crate) fn memory_grow(thread: &mut Stack<'_>, store: &mut Store<'_>) -> Result<Next, AllocError>
    ensures after { IfOk result (λ n. after_of n thread.new ≡ (memory_grow store.old thread.old).after) }
    ensures store { OnOk result (store.new ≡ (memory_grow store.old thread.old).store) }
{
    let Some(Value::I32(pages)) = thread.top() else {
        return Ok(Next::Stuck);
    };
    let before = store.grow(pages)?;
    let is_put = thread.put_one(Slot::of(grow_answer(before)));
    prove!(is_put);
    Ok(Next::Going)
}

// The address, which doesn't wrap.
#[inline(always)]
fn address(base: u32, offset: u32) -> u64
    ensures { result ≡ base + offset }
{
    u64::from(base) + u64::from(offset)
}

// The number of pages before, or -1.
fn grow_answer(before: Option<u32>) -> Value
    ensures { result ≡ grow_answer before }
{
    match before {
        Some(pages) => Value::I32(pages),
        None => Value::I32(0xffff_ffff),
    }
}
