// The operators on patterns of 64 bits.
ghost use Rattle.std.specs.Prelude.{◌≡◌, ◌↔◌, ◌-◌, ◌^◌};
ghost use Rattle.std.specs.Int.{w64};
ghost use Rattle.wasm_num.specs.Operators.{ieqz, ieq, ine, ilt_s, ilt_u, igt_s, igt_u, ile_s, ile_u, ige_s, ige_u, iclz, ictz, ipopcnt, iadd, isub, imul, idiv_s, idiv_u, irem_s, irem_u, iand, ior, ixor, ishl, ishr_s, ishr_u, irotl, irotr};

use crate::Trap;

// ---- tests and comparisons: 1 where the test holds, and 0 otherwise

/// Whether the number is 0.
pub fn i64_eqz(a: u64) -> u32
    ensures { result ≡ ieqz a }
{
    u32::from(a == 0)
}

/// Whether the numbers are equal.
pub fn i64_eq(a: u64, b: u64) -> u32
    ensures { result ≡ ieq a b }
{
    u32::from(a == b)
}

/// Whether the numbers differ.
pub fn i64_ne(a: u64, b: u64) -> u32
    ensures { result ≡ ine a b }
{
    u32::from(a != b)
}

/// Whether `a` is less than `b`, as signed numbers.
pub fn i64_lt_s(a: u64, b: u64) -> u32
    ensures { result ≡ ilt_s w64 a b }
{
    u32::from(a.cast_signed() < b.cast_signed())
}

/// Whether `a` is less than `b`, as unsigned numbers.
pub fn i64_lt_u(a: u64, b: u64) -> u32
    ensures { result ≡ ilt_u a b }
{
    u32::from(a < b)
}

/// Whether `a` is greater than `b`, as signed numbers.
pub fn i64_gt_s(a: u64, b: u64) -> u32
    ensures { result ≡ igt_s w64 a b }
{
    u32::from(a.cast_signed() > b.cast_signed())
}

/// Whether `a` is greater than `b`, as unsigned numbers.
pub fn i64_gt_u(a: u64, b: u64) -> u32
    ensures { result ≡ igt_u a b }
{
    u32::from(a > b)
}

/// Whether `a` is at most `b`, as signed numbers.
pub fn i64_le_s(a: u64, b: u64) -> u32
    ensures { result ≡ ile_s w64 a b }
{
    u32::from(a.cast_signed() <= b.cast_signed())
}

/// Whether `a` is at most `b`, as unsigned numbers.
pub fn i64_le_u(a: u64, b: u64) -> u32
    ensures { result ≡ ile_u a b }
{
    u32::from(a <= b)
}

/// Whether `a` is at least `b`, as signed numbers.
pub fn i64_ge_s(a: u64, b: u64) -> u32
    ensures { result ≡ ige_s w64 a b }
{
    u32::from(a.cast_signed() >= b.cast_signed())
}

/// Whether `a` is at least `b`, as unsigned numbers.
pub fn i64_ge_u(a: u64, b: u64) -> u32
    ensures { result ≡ ige_u a b }
{
    u32::from(a >= b)
}

// ---- counts of bits

/// The zeros above the highest bit that is set: 64 where none is.
pub fn i64_clz(a: u64) -> u64
    ensures { result ≡ iclz w64 a }
{
    u64::from(a.leading_zeros())
}

/// The zeros below the lowest bit that is set: 64 where none is.
pub fn i64_ctz(a: u64) -> u64
    ensures { result ≡ ictz w64 a }
{
    u64::from(a.trailing_zeros())
}

/// The bits that are set.
pub fn i64_popcnt(a: u64) -> u64
    ensures { result ≡ ipopcnt a }
{
    u64::from(a.count_ones())
}

// ---- arithmetic, which keeps the lowest 64 bits

/// The sum.
pub fn i64_add(a: u64, b: u64) -> u64
    ensures { result ≡ iadd w64 a b }
{
    a.wrapping_add(b)
}

/// The difference.
pub fn i64_sub(a: u64, b: u64) -> u64
    ensures { result ≡ isub w64 a b }
{
    a.wrapping_sub(b)
}

/// The product.
pub fn i64_mul(a: u64, b: u64) -> u64
    ensures { result ≡ imul w64 a b }
{
    a.wrapping_mul(b)
}

// ---- quotients and remainders

/// The signed quotient, rounded toward zero. Overflow comes for the least number by -1 alone.
pub fn i64_div_s(a: u64, b: u64) -> Result<u64, Trap>
    ensures value { result ≡ idiv_s w64 a b }
    ensures zero { (result ≡ Err Trap.ZeroDivisor) ↔ (b ≡ 0) }
    ensures overflow { (result ≡ Err Trap.Overflow) ↔ ((a ≡ 2 ^ 63) × (b ≡ 2 ^ 64 - 1)) }
{
    if b == 0 {
        return Err(Trap::ZeroDivisor);
    }
    match a.cast_signed().checked_div(b.cast_signed()) {
        Some(quotient) => Ok(quotient.cast_unsigned()),
        None => Err(Trap::Overflow),
    }
}

/// The unsigned quotient, rounded down.
pub fn i64_div_u(a: u64, b: u64) -> Result<u64, Trap>
    ensures value { result ≡ idiv_u a b }
    ensures zero { (result ≡ Err Trap.ZeroDivisor) ↔ (b ≡ 0) }
{
    a.checked_div(b).ok_or(Trap::ZeroDivisor)
}

/// The signed remainder, which has the sign of the dividend: 0 for the least number by -1.
pub fn i64_rem_s(a: u64, b: u64) -> Result<u64, Trap>
    ensures value { result ≡ irem_s w64 a b }
    ensures zero { (result ≡ Err Trap.ZeroDivisor) ↔ (b ≡ 0) }
{
    if b == 0 {
        return Err(Trap::ZeroDivisor);
    }
    let remainder = a.cast_signed().wrapping_rem(b.cast_signed());
    Ok(remainder.cast_unsigned())
}

/// The unsigned remainder.
pub fn i64_rem_u(a: u64, b: u64) -> Result<u64, Trap>
    ensures value { result ≡ irem_u a b }
    ensures zero { (result ≡ Err Trap.ZeroDivisor) ↔ (b ≡ 0) }
{
    a.checked_rem(b).ok_or(Trap::ZeroDivisor)
}

// ---- bits, shifts and rotations, by counts modulo 64

/// The bits that are set in both numbers.
pub fn i64_and(a: u64, b: u64) -> u64
    ensures { result ≡ iand a b }
{
    a & b
}

/// The bits that are set in one of the numbers or both.
pub fn i64_or(a: u64, b: u64) -> u64
    ensures { result ≡ ior a b }
{
    a | b
}

/// The bits that are set in one of the numbers alone.
pub fn i64_xor(a: u64, b: u64) -> u64
    ensures { result ≡ ixor a b }
{
    a ^ b
}

/// `a` shifted left.
pub fn i64_shl(a: u64, b: u64) -> u64
    ensures { result ≡ ishl w64 a b }
{
    a.wrapping_shl((b % 64) as u32)
}

/// `a` shifted right, with copies of the sign's bit from above.
pub fn i64_shr_s(a: u64, b: u64) -> u64
    ensures { result ≡ ishr_s w64 a b }
{
    a.cast_signed()
        .wrapping_shr((b % 64) as u32)
        .cast_unsigned()
}

/// `a` shifted right, with zeros from above.
pub fn i64_shr_u(a: u64, b: u64) -> u64
    ensures { result ≡ ishr_u w64 a b }
{
    a.wrapping_shr((b % 64) as u32)
}

/// `a` rotated left.
pub fn i64_rotl(a: u64, b: u64) -> u64
    ensures { result ≡ irotl w64 a b }
{
    a.rotate_left((b % 64) as u32)
}

/// `a` rotated right.
pub fn i64_rotr(a: u64, b: u64) -> u64
    ensures { result ≡ irotr w64 a b }
{
    a.rotate_right((b % 64) as u32)
}
