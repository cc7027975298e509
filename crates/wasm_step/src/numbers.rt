// Numeric instructions in place, of a thread for which they have a rule. The opcode is looked at once, and tells how many
// operands there are and of which type, so that these are not tested. Divisions are left to their full case.
ghost use Rattle.std.specs.Prelude.{◌≡◌, IsTrue, false, true};
ghost use Rattle.wasm_values.specs.Numeric.{is_unary};
ghost use Rattle.wasm_stack.specs.After.{Goes, Sticks, Stops};
ghost use Rattle.wasm_stack.specs.Limits.{ThreadWithin};
ghost use Rattle.wasm_stack.specs.Rows.{numeric};
ghost use Rattle.wasm_step.specs.inside.Rules.{OneIsI32, OneIsI64, TwoAreI32, TwoAreI64};

use wasm_stack::Stack;
use wasm_types::Value;
use wasm_values::{changed, combined};

#[tactic(auto, unfolding(wasm_values::specs::Numeric::is_unary))]
#[inline(always)]
pub(crate) fn numeric_in_place(thread: &mut Stack<'_>, op: u8) -> bool
    requires within { ThreadWithin thread.old }
    requires rule { numeric op thread.old ≡ Stops Sticks → ⊥ }
    ensures goes { IsTrue result → Goes thread.new ≡ numeric op thread.old }
    ensures within { ThreadWithin thread.new }
    ensures same { result ≡ false → thread.new ≡ thread.old }
{
    match op {
        0x45 => one_i32(thread, op, 0x45),
        0x46 => two_i32(thread, op, 0x46),
        0x47 => two_i32(thread, op, 0x47),
        0x48 => two_i32(thread, op, 0x48),
        0x49 => two_i32(thread, op, 0x49),
        0x4A => two_i32(thread, op, 0x4A),
        0x4B => two_i32(thread, op, 0x4B),
        0x4C => two_i32(thread, op, 0x4C),
        0x4D => two_i32(thread, op, 0x4D),
        0x4E => two_i32(thread, op, 0x4E),
        0x4F => two_i32(thread, op, 0x4F),
        _ => compared_i64(thread, op),
    }
}

#[tactic(auto, unfolding(wasm_values::specs::Numeric::is_unary))]
#[inline(always)]
fn compared_i64(thread: &mut Stack<'_>, op: u8) -> bool
    requires within { ThreadWithin thread.old }
    requires rule { numeric op thread.old ≡ Stops Sticks → ⊥ }
    ensures goes { IsTrue result → Goes thread.new ≡ numeric op thread.old }
    ensures within { ThreadWithin thread.new }
    ensures same { result ≡ false → thread.new ≡ thread.old }
{
    match op {
        0x50 => one_i64(thread, op, 0x50),
        0x51 => two_i64(thread, op, 0x51),
        0x52 => two_i64(thread, op, 0x52),
        0x53 => two_i64(thread, op, 0x53),
        0x54 => two_i64(thread, op, 0x54),
        0x55 => two_i64(thread, op, 0x55),
        0x56 => two_i64(thread, op, 0x56),
        0x57 => two_i64(thread, op, 0x57),
        0x58 => two_i64(thread, op, 0x58),
        0x59 => two_i64(thread, op, 0x59),
        0x5A => two_i64(thread, op, 0x5A),
        _ => combined_i32(thread, op),
    }
}

#[tactic(auto, unfolding(wasm_values::specs::Numeric::is_unary))]
#[inline(always)]
fn combined_i32(thread: &mut Stack<'_>, op: u8) -> bool
    requires within { ThreadWithin thread.old }
    requires rule { numeric op thread.old ≡ Stops Sticks → ⊥ }
    ensures goes { IsTrue result → Goes thread.new ≡ numeric op thread.old }
    ensures within { ThreadWithin thread.new }
    ensures same { result ≡ false → thread.new ≡ thread.old }
{
    match op {
        0x67 => one_i32(thread, op, 0x67),
        0x68 => one_i32(thread, op, 0x68),
        0x69 => one_i32(thread, op, 0x69),
        0x6A => two_i32(thread, op, 0x6A),
        0x6B => two_i32(thread, op, 0x6B),
        0x6C => two_i32(thread, op, 0x6C),
        0x71 => two_i32(thread, op, 0x71),
        0x72 => two_i32(thread, op, 0x72),
        0x73 => two_i32(thread, op, 0x73),
        0x74 => two_i32(thread, op, 0x74),
        0x75 => two_i32(thread, op, 0x75),
        0x76 => two_i32(thread, op, 0x76),
        0x77 => two_i32(thread, op, 0x77),
        0x78 => two_i32(thread, op, 0x78),
        _ => combined_i64(thread, op),
    }
}

#[tactic(auto, unfolding(wasm_values::specs::Numeric::is_unary))]
#[inline(always)]
fn combined_i64(thread: &mut Stack<'_>, op: u8) -> bool
    requires within { ThreadWithin thread.old }
    requires rule { numeric op thread.old ≡ Stops Sticks → ⊥ }
    ensures goes { IsTrue result → Goes thread.new ≡ numeric op thread.old }
    ensures within { ThreadWithin thread.new }
    ensures same { result ≡ false → thread.new ≡ thread.old }
{
    match op {
        0x79 => one_i64(thread, op, 0x79),
        0x7A => one_i64(thread, op, 0x7A),
        0x7B => one_i64(thread, op, 0x7B),
        0x7C => two_i64(thread, op, 0x7C),
        0x7D => two_i64(thread, op, 0x7D),
        0x7E => two_i64(thread, op, 0x7E),
        0x83 => two_i64(thread, op, 0x83),
        0x84 => two_i64(thread, op, 0x84),
        0x85 => two_i64(thread, op, 0x85),
        0x86 => two_i64(thread, op, 0x86),
        0x87 => two_i64(thread, op, 0x87),
        0x88 => two_i64(thread, op, 0x88),
        0x89 => two_i64(thread, op, 0x89),
        0x8A => two_i64(thread, op, 0x8A),
        _ => converted(thread, op),
    }
}

#[tactic(auto, unfolding(wasm_values::specs::Numeric::is_unary))]
#[inline(always)]
fn converted(thread: &mut Stack<'_>, op: u8) -> bool
    requires within { ThreadWithin thread.old }
    requires rule { numeric op thread.old ≡ Stops Sticks → ⊥ }
    ensures goes { IsTrue result → Goes thread.new ≡ numeric op thread.old }
    ensures within { ThreadWithin thread.new }
    ensures same { result ≡ false → thread.new ≡ thread.old }
{
    match op {
        0xA7 => one_i64(thread, op, 0xA7),
        0xAC => one_i32(thread, op, 0xAC),
        0xAD => one_i32(thread, op, 0xAD),
        0xC0 => one_i32(thread, op, 0xC0),
        0xC1 => one_i32(thread, op, 0xC1),
        0xC2 => one_i64(thread, op, 0xC2),
        0xC3 => one_i64(thread, op, 0xC3),
        0xC4 => one_i64(thread, op, 0xC4),
        _ => false,
    }
}

// An instruction on one operand of 32 bits. `k` is the opcode as a literal.
#[tactic(auto, using(crate::proofs::RuledNumbers::one_i32, crate::proofs::RuledNumbers::changed_by, crate::proofs::InPlace::within_one))]
#[inline(always)]
fn one_i32(thread: &mut Stack<'_>, op: u8, k: u8) -> bool
    requires within { ThreadWithin thread.old }
    requires rule { numeric op thread.old ≡ Stops Sticks → ⊥ }
    requires same { op ≡ k }
    requires takes { is_unary k ≡ true }
    requires only { OneIsI32 k }
    ensures goes { IsTrue result → Goes thread.new ≡ numeric op thread.old }
    ensures within { ThreadWithin thread.new }
    ensures same { result ≡ false → thread.new ≡ thread.old }
{
    let x = thread.last().as_narrow();
    let Some(v) = changed(k, Value::I32(x)) else {
        return false;
    };
    thread.replace_one(v);
    true
}

// The same on two.
#[tactic(auto, using(crate::proofs::RuledNumbers::two_i32, crate::proofs::RuledNumbers::combined_by, crate::proofs::RuledNumbers::within_two))]
#[inline(always)]
fn two_i32(thread: &mut Stack<'_>, op: u8, k: u8) -> bool
    requires within { ThreadWithin thread.old }
    requires rule { numeric op thread.old ≡ Stops Sticks → ⊥ }
    requires same { op ≡ k }
    requires takes { is_unary k ≡ false }
    requires only { TwoAreI32 k }
    ensures goes { IsTrue result → Goes thread.new ≡ numeric op thread.old }
    ensures within { ThreadWithin thread.new }
    ensures same { result ≡ false → thread.new ≡ thread.old }
{
    let (x, y) = thread.last_two();
    let (x, y) = (x.as_narrow(), y.as_narrow());
    let Some(v) = combined(k, Value::I32(x), Value::I32(y)) else {
        return false;
    };
    thread.replace_two(v);
    true
}

// The same on one of 64 bits.
#[tactic(auto, using(crate::proofs::RuledNumbers::one_i64, crate::proofs::RuledNumbers::changed_by, crate::proofs::InPlace::within_one))]
#[inline(always)]
fn one_i64(thread: &mut Stack<'_>, op: u8, k: u8) -> bool
    requires within { ThreadWithin thread.old }
    requires rule { numeric op thread.old ≡ Stops Sticks → ⊥ }
    requires same { op ≡ k }
    requires takes { is_unary k ≡ true }
    requires only { OneIsI64 k }
    ensures goes { IsTrue result → Goes thread.new ≡ numeric op thread.old }
    ensures within { ThreadWithin thread.new }
    ensures same { result ≡ false → thread.new ≡ thread.old }
{
    let x = thread.last().as_long();
    let Some(v) = changed(k, Value::I64(x)) else {
        return false;
    };
    thread.replace_one(v);
    true
}

// The same on two.
#[tactic(auto, using(crate::proofs::RuledNumbers::two_i64, crate::proofs::RuledNumbers::combined_by, crate::proofs::RuledNumbers::within_two))]
#[inline(always)]
fn two_i64(thread: &mut Stack<'_>, op: u8, k: u8) -> bool
    requires within { ThreadWithin thread.old }
    requires rule { numeric op thread.old ≡ Stops Sticks → ⊥ }
    requires same { op ≡ k }
    requires takes { is_unary k ≡ false }
    requires only { TwoAreI64 k }
    ensures goes { IsTrue result → Goes thread.new ≡ numeric op thread.old }
    ensures within { ThreadWithin thread.new }
    ensures same { result ≡ false → thread.new ≡ thread.old }
{
    let (x, y) = thread.last_two();
    let (x, y) = (x.as_long(), y.as_long());
    let Some(v) = combined(k, Value::I64(x), Value::I64(y)) else {
        return false;
    };
    thread.replace_two(v);
    true
}
