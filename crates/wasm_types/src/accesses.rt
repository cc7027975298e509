// The opcode table: what each load and each store moves.
ghost use Rattle.std.specs.Prelude.{◌≡◌, ◌≤◌, IfSome, option_map};
ghost use Rattle.wasm_types.specs.Accesses.{access, load_access, store_access};
ghost use Rattle.wasm_types.specs.Opcodes.{access_of};

use crate::code::ValType;
use crate::code::ValType::{F32, F64, I32, I64};

/// What a load or a store moves.
#[derive(Clone, Copy, Drop)]
pub struct Access {
    pub moved: ValType,
    /// The number of bytes in memory, as an exponent of 2.
    pub exponent: u32,
}

/// The load with this opcode.
#[inline(always)]
pub fn load_access(opcode: u8) -> Option<Access>
    ensures access { option_map access_of result ≡ load_access opcode }
    ensures within { IfSome result (λ a. a.exponent ≤ 3) }
{
    match opcode {
        0x28 => moves(I32, 2),
        0x29 => moves(I64, 3),
        0x2A => moves(F32, 2),
        0x2B => moves(F64, 3),
        0x2C..=0x2D => moves(I32, 0),
        0x2E..=0x2F => moves(I32, 1),
        0x30..=0x31 => moves(I64, 0),
        0x32..=0x33 => moves(I64, 1),
        0x34..=0x35 => moves(I64, 2),
        _ => None,
    }
}

/// The store with this opcode.
#[inline(always)]
pub fn store_access(opcode: u8) -> Option<Access>
    ensures access { option_map access_of result ≡ store_access opcode }
    ensures within { IfSome result (λ a. a.exponent ≤ 3) }
{
    match opcode {
        0x36 => moves(I32, 2),
        0x37 => moves(I64, 3),
        0x38 => moves(F32, 2),
        0x39 => moves(F64, 3),
        0x3A => moves(I32, 0),
        0x3B => moves(I32, 1),
        0x3C => moves(I64, 0),
        0x3D => moves(I64, 1),
        0x3E => moves(I64, 2),
        _ => None,
    }
}

#[inline(always)]
fn moves(moved: ValType, exponent: u32) -> Option<Access>
    ensures access { option_map access_of result ≡ access moved exponent }
    ensures exponent { IfSome result (λ a. a.exponent ≡ exponent) }
{
    Some(Access { moved, exponent })
}
