// The numeric instructions, by their opcodes.
ghost use Rattle.std.specs.Prelude.{◌≡◌, IfSome, false, true};
ghost use Rattle.wasm_values.specs.Numeric.{Gives, binary, binary_32, binary_64, combine_32, combine_64, compare_32, compare_64, computed_of, divide_32, divide_64, divided_32, divided_64, gives_32, gives_64, is_unary, trap_of, unary, unary_32, unary_64};

use wasm_num::{
    i32_add, i32_and, i32_clz, i32_ctz, i32_div_s, i32_div_u, i32_eq, i32_eqz, i32_extend8_s,
    i32_extend16_s, i32_ge_s, i32_ge_u, i32_gt_s, i32_gt_u, i32_le_s, i32_le_u, i32_lt_s, i32_lt_u,
    i32_mul, i32_ne, i32_or, i32_popcnt, i32_rem_s, i32_rem_u, i32_rotl, i32_rotr, i32_shl,
    i32_shr_s, i32_shr_u, i32_sub, i32_wrap_i64, i32_xor, i64_add, i64_and, i64_clz, i64_ctz,
    i64_div_s, i64_div_u, i64_eq, i64_eqz, i64_extend_i32_s, i64_extend_i32_u, i64_extend8_s,
    i64_extend16_s, i64_extend32_s, i64_ge_s, i64_ge_u, i64_gt_s, i64_gt_u, i64_le_s, i64_le_u,
    i64_lt_s, i64_lt_u, i64_mul, i64_ne, i64_or, i64_popcnt, i64_rem_s, i64_rem_u, i64_rotl,
    i64_rotr, i64_shl, i64_shr_s, i64_shr_u, i64_sub, i64_xor,
};
use wasm_types::{Slot, Trap, Value, operator_of};

/// What a numeric instruction gives: a value, a trap, or nothing, where none has the opcode and takes
/// such operands.
#[derive(Clone, Copy)]
pub enum Number {
    Given(Value),
    Failed(Trap),
    Missing,
}

/// Whether the opcode is one of an instruction on one operand.
#[inline(always)]
#[tactic(auto, unfolding(crate::specs::Numeric::is_unary))]
pub fn is_unary(op: u8) -> bool
    ensures { result ≡ is_unary op }
{
    match operator_of(op) {
        Some(found) => !found.is_binary,
        None => false,
    }
}

/// An instruction on one operand.
pub fn unary(op: u8, x: Value) -> Number
    ensures { computed_of result ≡ unary op x }
{
    match x {
        Value::I32(x) => unary_32(op, x),
        Value::I64(x) => unary_64(op, x),
    }
}

/// What an instruction on two operands gives that is no division. `None` comes also for others.
#[inline(always)]
pub fn combined(op: u8, x: Value, y: Value) -> Option<Slot>
    ensures two { IfSome result (λ v. is_unary op ≡ false) }
    ensures value { IfSome result (λ v. Gives v ≡ binary op x y) }
{
    match (x, y) {
        (Value::I32(x), Value::I32(y)) => combined_32(op, x, y),
        (Value::I64(x), Value::I64(y)) => combined_64(op, x, y),
        _ => None,
    }
}

#[tactic(auto, unfolding(crate::specs::Numeric::is_unary))]
#[inline(always)]
fn combined_32(op: u8, x: u32, y: u32) -> Option<Slot>
    ensures two { IfSome result (λ v. is_unary op ≡ false) }
    ensures value { IfSome result (λ v. Gives v ≡ binary_32 op x y) }
{
    match op {
        0x46 => Some(Slot::narrow(i32_eq(x, y))),
        0x47 => Some(Slot::narrow(i32_ne(x, y))),
        0x48 => Some(Slot::narrow(i32_lt_s(x, y))),
        0x49 => Some(Slot::narrow(i32_lt_u(x, y))),
        0x4A => Some(Slot::narrow(i32_gt_s(x, y))),
        0x4B => Some(Slot::narrow(i32_gt_u(x, y))),
        0x4C => Some(Slot::narrow(i32_le_s(x, y))),
        0x4D => Some(Slot::narrow(i32_le_u(x, y))),
        0x4E => Some(Slot::narrow(i32_ge_s(x, y))),
        0x4F => Some(Slot::narrow(i32_ge_u(x, y))),
        0x6A => Some(Slot::narrow(i32_add(x, y))),
        0x6B => Some(Slot::narrow(i32_sub(x, y))),
        0x6C => Some(Slot::narrow(i32_mul(x, y))),
        0x71 => Some(Slot::narrow(i32_and(x, y))),
        0x72 => Some(Slot::narrow(i32_or(x, y))),
        0x73 => Some(Slot::narrow(i32_xor(x, y))),
        0x74 => Some(Slot::narrow(i32_shl(x, y))),
        0x75 => Some(Slot::narrow(i32_shr_s(x, y))),
        0x76 => Some(Slot::narrow(i32_shr_u(x, y))),
        0x77 => Some(Slot::narrow(i32_rotl(x, y))),
        0x78 => Some(Slot::narrow(i32_rotr(x, y))),
        _ => None,
    }
}

#[tactic(auto, unfolding(crate::specs::Numeric::is_unary))]
#[inline(always)]
fn combined_64(op: u8, x: u64, y: u64) -> Option<Slot>
    ensures two { IfSome result (λ v. is_unary op ≡ false) }
    ensures value { IfSome result (λ v. Gives v ≡ binary_64 op x y) }
{
    match op {
        0x51 => Some(Slot::narrow(i64_eq(x, y))),
        0x52 => Some(Slot::narrow(i64_ne(x, y))),
        0x53 => Some(Slot::narrow(i64_lt_s(x, y))),
        0x54 => Some(Slot::narrow(i64_lt_u(x, y))),
        0x55 => Some(Slot::narrow(i64_gt_s(x, y))),
        0x56 => Some(Slot::narrow(i64_gt_u(x, y))),
        0x57 => Some(Slot::narrow(i64_le_s(x, y))),
        0x58 => Some(Slot::narrow(i64_le_u(x, y))),
        0x59 => Some(Slot::narrow(i64_ge_s(x, y))),
        0x5A => Some(Slot::narrow(i64_ge_u(x, y))),
        0x7C => Some(Slot::long(i64_add(x, y))),
        0x7D => Some(Slot::long(i64_sub(x, y))),
        0x7E => Some(Slot::long(i64_mul(x, y))),
        0x83 => Some(Slot::long(i64_and(x, y))),
        0x84 => Some(Slot::long(i64_or(x, y))),
        0x85 => Some(Slot::long(i64_xor(x, y))),
        0x86 => Some(Slot::long(i64_shl(x, y))),
        0x87 => Some(Slot::long(i64_shr_s(x, y))),
        0x88 => Some(Slot::long(i64_shr_u(x, y))),
        0x89 => Some(Slot::long(i64_rotl(x, y))),
        0x8A => Some(Slot::long(i64_rotr(x, y))),
        _ => None,
    }
}

/// What an instruction on one operand gives. `None` comes also for others.
#[inline(always)]
pub fn changed(op: u8, x: Value) -> Option<Slot>
    ensures one { IfSome result (λ v. is_unary op ≡ true) }
    ensures value { IfSome result (λ v. Gives v ≡ unary op x) }
{
    match x {
        Value::I32(x) => changed_32(op, x),
        Value::I64(x) => changed_64(op, x),
    }
}

#[tactic(auto, unfolding(crate::specs::Numeric::is_unary))]
#[inline(always)]
fn changed_32(op: u8, x: u32) -> Option<Slot>
    ensures one { IfSome result (λ v. is_unary op ≡ true) }
    ensures value { IfSome result (λ v. Gives v ≡ unary_32 op x) }
{
    match op {
        0x45 => Some(Slot::narrow(i32_eqz(x))),
        0x67 => Some(Slot::narrow(i32_clz(x))),
        0x68 => Some(Slot::narrow(i32_ctz(x))),
        0x69 => Some(Slot::narrow(i32_popcnt(x))),
        0xAC => Some(Slot::long(i64_extend_i32_s(x))),
        0xAD => Some(Slot::long(i64_extend_i32_u(x))),
        0xC0 => Some(Slot::narrow(i32_extend8_s(x))),
        0xC1 => Some(Slot::narrow(i32_extend16_s(x))),
        _ => None,
    }
}

#[tactic(auto, unfolding(crate::specs::Numeric::is_unary))]
#[inline(always)]
fn changed_64(op: u8, x: u64) -> Option<Slot>
    ensures one { IfSome result (λ v. is_unary op ≡ true) }
    ensures value { IfSome result (λ v. Gives v ≡ unary_64 op x) }
{
    match op {
        0x50 => Some(Slot::narrow(i64_eqz(x))),
        0x79 => Some(Slot::long(i64_clz(x))),
        0x7A => Some(Slot::long(i64_ctz(x))),
        0x7B => Some(Slot::long(i64_popcnt(x))),
        0xA7 => Some(Slot::narrow(i32_wrap_i64(x))),
        0xC2 => Some(Slot::long(i64_extend8_s(x))),
        0xC3 => Some(Slot::long(i64_extend16_s(x))),
        0xC4 => Some(Slot::long(i64_extend32_s(x))),
        _ => None,
    }
}

/// An instruction on two operands.
pub fn binary(op: u8, x: Value, y: Value) -> Number
    ensures { computed_of result ≡ binary op x y }
{
    match (x, y) {
        (Value::I32(x), Value::I32(y)) => binary_32(op, x, y),
        (Value::I64(x), Value::I64(y)) => binary_64(op, x, y),
        _ => Number::Missing,
    }
}

fn unary_32(op: u8, x: u32) -> Number
    ensures { computed_of result ≡ unary_32 op x }
{
    match op {
        0x45 => Number::Given(Value::I32(i32_eqz(x))),
        0x67 => Number::Given(Value::I32(i32_clz(x))),
        0x68 => Number::Given(Value::I32(i32_ctz(x))),
        0x69 => Number::Given(Value::I32(i32_popcnt(x))),
        0xAC => Number::Given(Value::I64(i64_extend_i32_s(x))),
        0xAD => Number::Given(Value::I64(i64_extend_i32_u(x))),
        0xC0 => Number::Given(Value::I32(i32_extend8_s(x))),
        0xC1 => Number::Given(Value::I32(i32_extend16_s(x))),
        _ => Number::Missing,
    }
}

fn unary_64(op: u8, x: u64) -> Number
    ensures { computed_of result ≡ unary_64 op x }
{
    match op {
        0x50 => Number::Given(Value::I32(i64_eqz(x))),
        0x79 => Number::Given(Value::I64(i64_clz(x))),
        0x7A => Number::Given(Value::I64(i64_ctz(x))),
        0x7B => Number::Given(Value::I64(i64_popcnt(x))),
        0xA7 => Number::Given(Value::I32(i32_wrap_i64(x))),
        0xC2 => Number::Given(Value::I64(i64_extend8_s(x))),
        0xC3 => Number::Given(Value::I64(i64_extend16_s(x))),
        0xC4 => Number::Given(Value::I64(i64_extend32_s(x))),
        _ => Number::Missing,
    }
}

fn binary_32(op: u8, x: u32, y: u32) -> Number
    ensures { computed_of result ≡ binary_32 op x y }
{
    if op <= 0x4F {
        return given_32(compare_32(op, x, y));
    }
    if 0x6D <= op && op <= 0x70 {
        return divide_32(op, x, y);
    }
    given_32(combine_32(op, x, y))
}

fn binary_64(op: u8, x: u64, y: u64) -> Number
    ensures { computed_of result ≡ binary_64 op x y }
{
    if op <= 0x5A {
        return given_32(compare_64(op, x, y));
    }
    if 0x7F <= op && op <= 0x82 {
        return divide_64(op, x, y);
    }
    given_64(combine_64(op, x, y))
}

fn compare_32(op: u8, x: u32, y: u32) -> Option<u32>
    ensures { result ≡ compare_32 op x y }
{
    match op {
        0x46 => Some(i32_eq(x, y)),
        0x47 => Some(i32_ne(x, y)),
        0x48 => Some(i32_lt_s(x, y)),
        0x49 => Some(i32_lt_u(x, y)),
        0x4A => Some(i32_gt_s(x, y)),
        0x4B => Some(i32_gt_u(x, y)),
        0x4C => Some(i32_le_s(x, y)),
        0x4D => Some(i32_le_u(x, y)),
        0x4E => Some(i32_ge_s(x, y)),
        0x4F => Some(i32_ge_u(x, y)),
        _ => None,
    }
}

fn divide_32(op: u8, x: u32, y: u32) -> Number
    ensures { computed_of result ≡ divide_32 op x y }
{
    match op {
        0x6D => divided_32(i32_div_s(x, y)),
        0x6E => divided_32(i32_div_u(x, y)),
        0x6F => divided_32(i32_rem_s(x, y)),
        0x70 => divided_32(i32_rem_u(x, y)),
        _ => Number::Missing,
    }
}

fn combine_32(op: u8, x: u32, y: u32) -> Option<u32>
    ensures { result ≡ combine_32 op x y }
{
    match op {
        0x6A => Some(i32_add(x, y)),
        0x6B => Some(i32_sub(x, y)),
        0x6C => Some(i32_mul(x, y)),
        0x71 => Some(i32_and(x, y)),
        0x72 => Some(i32_or(x, y)),
        0x73 => Some(i32_xor(x, y)),
        0x74 => Some(i32_shl(x, y)),
        0x75 => Some(i32_shr_s(x, y)),
        0x76 => Some(i32_shr_u(x, y)),
        0x77 => Some(i32_rotl(x, y)),
        0x78 => Some(i32_rotr(x, y)),
        _ => None,
    }
}

fn compare_64(op: u8, x: u64, y: u64) -> Option<u32>
    ensures { result ≡ compare_64 op x y }
{
    match op {
        0x51 => Some(i64_eq(x, y)),
        0x52 => Some(i64_ne(x, y)),
        0x53 => Some(i64_lt_s(x, y)),
        0x54 => Some(i64_lt_u(x, y)),
        0x55 => Some(i64_gt_s(x, y)),
        0x56 => Some(i64_gt_u(x, y)),
        0x57 => Some(i64_le_s(x, y)),
        0x58 => Some(i64_le_u(x, y)),
        0x59 => Some(i64_ge_s(x, y)),
        0x5A => Some(i64_ge_u(x, y)),
        _ => None,
    }
}

fn divide_64(op: u8, x: u64, y: u64) -> Number
    ensures { computed_of result ≡ divide_64 op x y }
{
    match op {
        0x7F => divided_64(i64_div_s(x, y)),
        0x80 => divided_64(i64_div_u(x, y)),
        0x81 => divided_64(i64_rem_s(x, y)),
        0x82 => divided_64(i64_rem_u(x, y)),
        _ => Number::Missing,
    }
}

fn combine_64(op: u8, x: u64, y: u64) -> Option<u64>
    ensures { result ≡ combine_64 op x y }
{
    match op {
        0x7C => Some(i64_add(x, y)),
        0x7D => Some(i64_sub(x, y)),
        0x7E => Some(i64_mul(x, y)),
        0x83 => Some(i64_and(x, y)),
        0x84 => Some(i64_or(x, y)),
        0x85 => Some(i64_xor(x, y)),
        0x86 => Some(i64_shl(x, y)),
        0x87 => Some(i64_shr_s(x, y)),
        0x88 => Some(i64_shr_u(x, y)),
        0x89 => Some(i64_rotl(x, y)),
        0x8A => Some(i64_rotr(x, y)),
        _ => None,
    }
}

fn given_32(x: Option<u32>) -> Number
    ensures { computed_of result ≡ gives_32 x }
{
    match x {
        Some(x) => Number::Given(Value::I32(x)),
        None => Number::Missing,
    }
}

fn given_64(x: Option<u64>) -> Number
    ensures { computed_of result ≡ gives_64 x }
{
    match x {
        Some(x) => Number::Given(Value::I64(x)),
        None => Number::Missing,
    }
}

fn divided_32(x: Result<u32, wasm_num::Trap>) -> Number
    ensures { computed_of result ≡ divided_32 x }
{
    match x {
        Ok(x) => Number::Given(Value::I32(x)),
        Err(trap) => Number::Failed(trap_of(trap)),
    }
}

fn divided_64(x: Result<u64, wasm_num::Trap>) -> Number
    ensures { computed_of result ≡ divided_64 x }
{
    match x {
        Ok(x) => Number::Given(Value::I64(x)),
        Err(trap) => Number::Failed(trap_of(trap)),
    }
}

fn trap_of(trap: wasm_num::Trap) -> Trap
    ensures { result ≡ trap_of trap }
{
    match trap {
        wasm_num::Trap::ZeroDivisor => Trap::ZeroDivisor,
        wasm_num::Trap::Overflow => Trap::Overflow,
    }
}
