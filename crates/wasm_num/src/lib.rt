//! The integer operators of WebAssembly on bit patterns, one call for each instruction and named as it is, with `_` for `.`.
//!
//! Each is the operator of the WebAssembly specification, version 1.0, section 4.3.2, and gives exactly what `specs/Operators`
//! computes on numbers; those that read the lowest bits as a signed number came with version 2.0. A division tells its trap
//! (`Trap`): a divisor of 0, or a quotient that is too great. All other calls always have a result. Which opcode is which
//! operator is said in `wasm_values`. Nothing here takes memory.
#![tactic(auto)]

mod bits_32;
mod bits_64;
mod convert;

pub use bits_32::{
    i32_add, i32_and, i32_clz, i32_ctz, i32_div_s, i32_div_u, i32_eq, i32_eqz, i32_ge_s, i32_ge_u,
    i32_gt_s, i32_gt_u, i32_le_s, i32_le_u, i32_lt_s, i32_lt_u, i32_mul, i32_ne, i32_or,
    i32_popcnt, i32_rem_s, i32_rem_u, i32_rotl, i32_rotr, i32_shl, i32_shr_s, i32_shr_u, i32_sub,
    i32_xor,
};
pub use bits_64::{
    i64_add, i64_and, i64_clz, i64_ctz, i64_div_s, i64_div_u, i64_eq, i64_eqz, i64_ge_s, i64_ge_u,
    i64_gt_s, i64_gt_u, i64_le_s, i64_le_u, i64_lt_s, i64_lt_u, i64_mul, i64_ne, i64_or,
    i64_popcnt, i64_rem_s, i64_rem_u, i64_rotl, i64_rotr, i64_shl, i64_shr_s, i64_shr_u, i64_sub,
    i64_xor,
};
pub use convert::{
    i32_extend8_s, i32_extend16_s, i32_wrap_i64, i64_extend_i32_s, i64_extend_i32_u, i64_extend8_s,
    i64_extend16_s, i64_extend32_s,
};

/// Why a division has no result.
#[derive(Clone, Copy)]
pub enum Trap {
    /// The divisor is 0.
    ZeroDivisor,
    /// The quotient of the least signed number and -1 is too great for the width.
    Overflow,
}
