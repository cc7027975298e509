// Loads and stores.
ghost use Rattle.std.specs.Prelude.{◌≡◌, ◌≤◌, ◌^◌, IfSome};
ghost use Rattle.std.specs.Int.{w8, w16, w32, w64};
ghost use Rattle.wasm_num.specs.Operators.{extend_s, wrap};
ghost use Rattle.guest_memory.specs.LittleEndian.{IsWidth};
ghost use Rattle.wasm_types.specs.Stack.{is_same};
ghost use Rattle.wasm_values.specs.Access.{load_value, load_width, store_width};
ghost use Rattle.wasm_values.specs.Values.{type_of_value};

use wasm_num::{i32_wrap_i64, i64_extend_i32_s};
use wasm_types::{Slot, ValType, Value, load_access, store_access};

/// How many bytes a load reads.
#[tactic(auto, unfolding(crate::specs::Access::load_width))]
#[inline(always)]
pub fn load_width(op: u8) -> Option<u32>
    ensures width { result ≡ load_width op }
    ensures named { IfSome result (λ w. IsWidth w) }
{
    match load_access(op) {
        Some(found) if !found.moved.is_float() => Some(bytes(found.exponent)),
        _ => None,
    }
}

/// The operand that a load makes of the number that it reads.
#[tactic(auto, unfolding(crate::specs::Access::load_value))]
#[inline(always)]
pub fn load_value(op: u8, n: u64) -> Option<Slot>
    ensures { result ≡ load_value op n }
{
    match op {
        0x28 => Some(Slot::narrow(i32_wrap_i64(n))),
        0x29 => Some(Slot::long(n)),
        0x2C => Some(Slot::narrow(signed_8(low_8(n)))),
        0x2D => Some(Slot::narrow(u32::from(low_8(n)))),
        0x2E => Some(Slot::narrow(signed_16(low_16(n)))),
        0x2F => Some(Slot::narrow(u32::from(low_16(n)))),
        0x30 => Some(Slot::long(long_signed_8(low_8(n)))),
        0x31 => Some(Slot::long(u64::from(low_8(n)))),
        0x32 => Some(Slot::long(long_signed_16(low_16(n)))),
        0x33 => Some(Slot::long(u64::from(low_16(n)))),
        0x34 => Some(Slot::long(i64_extend_i32_s(i32_wrap_i64(n)))),
        0x35 => Some(Slot::long(u64::from(i32_wrap_i64(n)))),
        _ => None,
    }
}

/// How many bytes of the operand a store writes.
#[tactic(auto, unfolding(crate::specs::Access::store_width))]
#[inline(always)]
pub fn store_width(op: u8, v: Value) -> Option<u32>
    ensures width { result ≡ store_width op v }
    ensures named { IfSome result (λ w. IsWidth w) }
{
    match store_access(op) {
        Some(found) if is_of_type(v, found.moved) => Some(bytes(found.exponent)),
        _ => None,
    }
}

#[inline(always)]
fn is_of_type(v: Value, value_type: ValType) -> bool
    ensures { result ≡ is_same (type_of_value v) value_type }
{
    matches!(
        (v, value_type),
        (Value::I32(_), ValType::I32) | (Value::I64(_), ValType::I64)
    )
}

// The number of bytes with this exponent.
#[inline(always)]
fn bytes(exponent: u32) -> u32
    requires { exponent ≤ 3 }
    ensures bytes { result ≡ 2 ^ exponent }
    ensures named { IsWidth result }
{
    match exponent {
        0 => 1,
        1 => 2,
        2 => 4,
        _ => 8,
    }
}

fn low_8(n: u64) -> u8
    ensures { result ≡ wrap w8 n }
{
    (n & 0xff) as u8
}

fn low_16(n: u64) -> u16
    ensures { result ≡ wrap w16 n }
{
    (n & 0xffff) as u16
}

fn signed_8(n: u8) -> u32
    ensures { result ≡ extend_s w8 w32 n }
{
    i32::from(n.cast_signed()).cast_unsigned()
}

fn signed_16(n: u16) -> u32
    ensures { result ≡ extend_s w16 w32 n }
{
    i32::from(n.cast_signed()).cast_unsigned()
}

fn long_signed_8(n: u8) -> u64
    ensures { result ≡ extend_s w8 w64 n }
{
    i64::from(n.cast_signed()).cast_unsigned()
}

fn long_signed_16(n: u16) -> u64
    ensures { result ≡ extend_s w16 w64 n }
{
    i64::from(n.cast_signed()).cast_unsigned()
}
