// The operators on patterns of 32 bits.
ghost use Rattle.std.specs.Prelude.{◌≡◌, ◌↔◌, ◌-◌, ◌^◌};
ghost use Rattle.std.specs.Int.{w32};
ghost use Rattle.wasm_num.specs.Operators.{ieqz, ieq, ine, ilt_s, ilt_u, igt_s, igt_u, ile_s, ile_u, ige_s, ige_u, iclz, ictz, ipopcnt, iadd, isub, imul, idiv_s, idiv_u, irem_s, irem_u, iand, ior, ixor, ishl, ishr_s, ishr_u, irotl, irotr};

use crate::Trap;

// ---- tests and comparisons: 1 where the test holds, and 0 otherwise

/// Whether the number is 0.
pub fn i32_eqz(a: u32) -> u32
    ensures { result ≡ ieqz a }
{
    u32::from(a == 0)
}

/// Whether the numbers are equal.
pub fn i32_eq(a: u32, b: u32) -> u32
    ensures { result ≡ ieq a b }
{
    u32::from(a == b)
}

/// Whether the numbers differ.
pub fn i32_ne(a: u32, b: u32) -> u32
    ensures { result ≡ ine a b }
{
    u32::from(a != b)
}

/// Whether `a` is less than `b`, as signed numbers.
pub fn i32_lt_s(a: u32, b: u32) -> u32
    ensures { result ≡ ilt_s w32 a b }
{
    u32::from(a.cast_signed() < b.cast_signed())
}

/// Whether `a` is less than `b`, as unsigned numbers.
pub fn i32_lt_u(a: u32, b: u32) -> u32
    ensures { result ≡ ilt_u a b }
{
    u32::from(a < b)
}

/// Whether `a` is greater than `b`, as signed numbers.
pub fn i32_gt_s(a: u32, b: u32) -> u32
    ensures { result ≡ igt_s w32 a b }
{
    u32::from(a.cast_signed() > b.cast_signed())
}

/// Whether `a` is greater than `b`, as unsigned numbers.
pub fn i32_gt_u(a: u32, b: u32) -> u32
    ensures { result ≡ igt_u a b }
{
    u32::from(a > b)
}

/// Whether `a` is at most `b`, as signed numbers.
pub fn i32_le_s(a: u32, b: u32) -> u32
    ensures { result ≡ ile_s w32 a b }
{
    u32::from(a.cast_signed() <= b.cast_signed())
}

/// Whether `a` is at most `b`, as unsigned numbers.
pub fn i32_le_u(a: u32, b: u32) -> u32
    ensures { result ≡ ile_u a b }
{
    u32::from(a <= b)
}

/// Whether `a` is at least `b`, as signed numbers.
pub fn i32_ge_s(a: u32, b: u32) -> u32
    ensures { result ≡ ige_s w32 a b }
{
    u32::from(a.cast_signed() >= b.cast_signed())
}

/// Whether `a` is at least `b`, as unsigned numbers.
pub fn i32_ge_u(a: u32, b: u32) -> u32
    ensures { result ≡ ige_u a b }
{
    u32::from(a >= b)
}

// ---- counts of bits

/// The zeros above the highest bit that is set: 32 where none is.
pub fn i32_clz(a: u32) -> u32
    ensures { result ≡ iclz w32 a }
{
    a.leading_zeros()
}

/// The zeros below the lowest bit that is set: 32 where none is.
pub fn i32_ctz(a: u32) -> u32
    ensures { result ≡ ictz w32 a }
{
    a.trailing_zeros()
}

/// The bits that are set.
pub fn i32_popcnt(a: u32) -> u32
    ensures { result ≡ ipopcnt a }
{
    a.count_ones()
}

// ---- arithmetic, which keeps the lowest 32 bits

/// The sum.
pub fn i32_add(a: u32, b: u32) -> u32
    ensures { result ≡ iadd w32 a b }
{
    a.wrapping_add(b)
}

/// The difference.
pub fn i32_sub(a: u32, b: u32) -> u32
    ensures { result ≡ isub w32 a b }
{
    a.wrapping_sub(b)
}

/// The product.
pub fn i32_mul(a: u32, b: u32) -> u32
    ensures { result ≡ imul w32 a b }
{
    a.wrapping_mul(b)
}

// ---- quotients and remainders

/// The signed quotient, rounded toward zero. Overflow comes for the least number by -1 alone.
pub fn i32_div_s(a: u32, b: u32) -> Result<u32, Trap>
    ensures value { result ≡ idiv_s w32 a b }
    ensures zero { (result ≡ Err Trap.ZeroDivisor) ↔ (b ≡ 0) }
    ensures overflow { (result ≡ Err Trap.Overflow) ↔ ((a ≡ 2 ^ 31) × (b ≡ 2 ^ 32 - 1)) }
{
    if b == 0 {
        return Err(Trap::ZeroDivisor);
    }
    match a.cast_signed().checked_div(b.cast_signed()) {
        Some(quotient) => Ok(quotient.cast_unsigned()),
        None => Err(Trap::Overflow),
    }
}

/// The unsigned quotient, rounded down.
pub fn i32_div_u(a: u32, b: u32) -> Result<u32, Trap>
    ensures value { result ≡ idiv_u a b }
    ensures zero { (result ≡ Err Trap.ZeroDivisor) ↔ (b ≡ 0) }
{
    a.checked_div(b).ok_or(Trap::ZeroDivisor)
}

/// The signed remainder, which has the sign of the dividend: 0 for the least number by -1.
pub fn i32_rem_s(a: u32, b: u32) -> Result<u32, Trap>
    ensures value { result ≡ irem_s w32 a b }
    ensures zero { (result ≡ Err Trap.ZeroDivisor) ↔ (b ≡ 0) }
{
    if b == 0 {
        return Err(Trap::ZeroDivisor);
    }
    let remainder = a.cast_signed().wrapping_rem(b.cast_signed());
    Ok(remainder.cast_unsigned())
}

/// The unsigned remainder.
pub fn i32_rem_u(a: u32, b: u32) -> Result<u32, Trap>
    ensures value { result ≡ irem_u a b }
    ensures zero { (result ≡ Err Trap.ZeroDivisor) ↔ (b ≡ 0) }
{
    a.checked_rem(b).ok_or(Trap::ZeroDivisor)
}

// ---- bits, shifts and rotations, by counts modulo 32

/// The bits that are set in both numbers.
pub fn i32_and(a: u32, b: u32) -> u32
    ensures { result ≡ iand a b }
{
    a & b
}

/// The bits that are set in one of the numbers or both.
pub fn i32_or(a: u32, b: u32) -> u32
    ensures { result ≡ ior a b }
{
    a | b
}

/// The bits that are set in one of the numbers alone.
pub fn i32_xor(a: u32, b: u32) -> u32
    ensures { result ≡ ixor a b }
{
    a ^ b
}

/// `a` shifted left.
pub fn i32_shl(a: u32, b: u32) -> u32
    ensures { result ≡ ishl w32 a b }
{
    a.wrapping_shl(b)
}

/// `a` shifted right, with copies of the sign's bit from above.
pub fn i32_shr_s(a: u32, b: u32) -> u32
    ensures { result ≡ ishr_s w32 a b }
{
    a.cast_signed().wrapping_shr(b).cast_unsigned()
}

/// `a` shifted right, with zeros from above.
pub fn i32_shr_u(a: u32, b: u32) -> u32
    ensures { result ≡ ishr_u w32 a b }
{
    a.wrapping_shr(b)
}

/// `a` rotated left.
pub fn i32_rotl(a: u32, b: u32) -> u32
    ensures { result ≡ irotl w32 a b }
{
    a.rotate_left(b % 32)
}

/// `a` rotated right.
pub fn i32_rotr(a: u32, b: u32) -> u32
    ensures { result ≡ irotr w32 a b }
{
    a.rotate_right(b % 32)
}
