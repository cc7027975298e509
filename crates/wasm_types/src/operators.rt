// The opcode table: what each operator on numbers takes and gives.
ghost use Rattle.std.specs.Prelude.{◌≡◌, option_map};
ghost use Rattle.wasm_types.specs.Numeric.{operator_of, unary_operator, binary_operator};
ghost use Rattle.wasm_types.specs.Opcodes.{operator};

use crate::code::ValType;
use crate::code::ValType::{F32, F64, I32, I64};

/// What an operator on numbers takes and gives.
#[derive(Clone, Copy, Drop)]
pub struct Operator {
    /// Whether it takes two operands of one type.
    pub is_binary: bool,
    /// The type of each operand.
    pub operand: ValType,
    pub gives: ValType,
}

/// The operator on numbers with this opcode.
// It is put in place, so that a caller that asks for one field has one test of it.
#[inline(always)]
pub fn operator_of(opcode: u8) -> Option<Operator>
    ensures { option_map operator result ≡ operator_of opcode }
{
    match opcode {
        0x45 => unary_operator(I32, I32),
        0x46..=0x4F => binary_operator(I32, I32),
        0x50 => unary_operator(I64, I32),
        0x51..=0x5A => binary_operator(I64, I32),
        0x5B..=0x60 => binary_operator(F32, I32),
        0x61..=0x66 => binary_operator(F64, I32),
        0x67..=0x69 => unary_operator(I32, I32),
        0x6A..=0x78 => binary_operator(I32, I32),
        0x79..=0x7B => unary_operator(I64, I64),
        0x7C..=0x8A => binary_operator(I64, I64),
        0x8B..=0x91 => unary_operator(F32, F32),
        0x92..=0x98 => binary_operator(F32, F32),
        0x99..=0x9F => unary_operator(F64, F64),
        0xA0..=0xA6 => binary_operator(F64, F64),
        0xA7 => unary_operator(I64, I32),
        0xA8..=0xA9 => unary_operator(F32, I32),
        0xAA..=0xAB => unary_operator(F64, I32),
        0xAC..=0xAD => unary_operator(I32, I64),
        0xAE..=0xAF => unary_operator(F32, I64),
        0xB0..=0xB1 => unary_operator(F64, I64),
        0xB2..=0xB3 => unary_operator(I32, F32),
        0xB4..=0xB5 => unary_operator(I64, F32),
        0xB6 => unary_operator(F64, F32),
        0xB7..=0xB8 => unary_operator(I32, F64),
        0xB9..=0xBA => unary_operator(I64, F64),
        0xBB => unary_operator(F32, F64),
        0xBC => unary_operator(F32, I32),
        0xBD => unary_operator(F64, I64),
        0xBE => unary_operator(I32, F32),
        0xBF => unary_operator(I64, F64),
        0xC0..=0xC1 => unary_operator(I32, I32),
        0xC2..=0xC4 => unary_operator(I64, I64),
        _ => None,
    }
}

#[inline(always)]
fn unary_operator(operand: ValType, gives: ValType) -> Option<Operator>
    ensures { option_map operator result ≡ unary_operator operand gives }
{
    Some(Operator {
        is_binary: false,
        operand,
        gives,
    })
}

#[inline(always)]
fn binary_operator(operand: ValType, gives: ValType) -> Option<Operator>
    ensures { option_map operator result ≡ binary_operator operand gives }
{
    Some(Operator {
        is_binary: true,
        operand,
        gives,
    })
}
