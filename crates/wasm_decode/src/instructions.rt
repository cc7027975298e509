// Instructions and expressions (WebAssembly 1.0, section 5.4).
ghost use Rattle.std.specs.Prelude.{◌≡◌, []};
ghost use Rattle.wasm_types.specs.declared.code.Instr.TheVariants as instr;
ghost use Rattle.wasm_types.specs.Code.{tree, trees};
ghost use Rattle.wasm_decode.specs.inside.Decoding.{DecodesTo, DecodesOnto, Pushes};
ghost use Rattle.wasm_decode.specs.Instrs.{EndedInstructions, whole_at, control_at, variable_instr_at, memory_at, numeric_at, plain_at, instr_at, levels_at, expression_at};

use crate::error::DecodeError;
use crate::numbers::{
    bits_of_f32, bits_of_f64, bits_of_i32, bits_of_i64, byte, exact_byte, number,
};
use crate::types::result_type;
use crate::vectors::{IndexEntry, vector};
use fri_bytes::Cursor;
use std::alloc::Global;
use wasm_types::{Instr, ValType};

/// The levels of an expression, in which blocks nest at most 1,000 deep. This bounds the recursion too.
const MOST_LEVELS: u32 = 1001;

// The bytes that end instructions.

const ELSE: u8 = 0x05;

const END: u8 = 0x0b;

#[tactic(auto, unfolding(crate::specs::Instrs::expression_at))]
pub(crate) fn expression(alloc: Global, cursor: &mut Cursor) -> Result<Vec<Instr>, DecodeError>
    ensures { DecodesTo (λ v. trees v.items) result cursor.new (expression_at cursor.old.left) }
{
    let mut instrs = Vec::new(alloc);
    whole(alloc, cursor, MOST_LEVELS, &mut instrs)?;
    Ok(instrs)
}

// What reads levels puts its instructions behind those that its caller holds, and makes none itself: a level of
// blocks then takes little of the stack.

/// Instructions in less than so many levels that `END` ends.
#[cycle(instrs)]
#[tactic(auto, unfolding(crate::specs::Instrs::whole_at))]
fn whole(
    alloc: Global,
    cursor: &mut Cursor,
    levels: u32,
    instrs: &mut Vec<Instr>,
) -> Result<(), DecodeError>
    requires { instrs.now.items ≡ [] }
    ensures { DecodesTo (λ _. trees instrs.new.items) result cursor.new (whole_at (levels_at levels) cursor.old.left) }
{
    let end = sequence(alloc, cursor, levels, instrs)?;
    if end != END {
        return Err(DecodeError::Malformed);
    }
    Ok(())
}

/// Instructions in less than so many levels; the byte that ends them is returned.
#[cycle(instrs)]
fn sequence(
    alloc: Global,
    cursor: &mut Cursor,
    levels: u32,
    instrs: &mut Vec<Instr>,
) -> Result<u8, DecodeError>
    requires { instrs.now.items ≡ [] }
    ensures { DecodesTo (λ end. (trees instrs.new.items, end)) result cursor.new (levels_at levels cursor.old.left) }
{
    if levels == 0 {
        return Err(DecodeError::Malformed);
    }
    // An instruction takes a byte at least, since the readers are exact.
    fri_bytes::laws::exact_readers();
    loop {
        let opcode = byte(cursor)?;
        if opcode == END || opcode == ELSE {
            return Ok(opcode);
        }
        instr(alloc, cursor, levels - 1, opcode, instrs)?;
    }
}

/// An instruction after its first byte, with those inside it in less than so many levels.
#[cycle(instrs)]
#[tactic(auto, unfolding(crate::specs::Instrs::instr_at, crate::specs::Instrs::block_at, crate::specs::Instrs::if_at))]
fn instr(
    alloc: Global,
    cursor: &mut Cursor,
    levels: u32,
    opcode: u8,
    instrs: &mut Vec<Instr>,
) -> Result<(), DecodeError>
    ensures { DecodesOnto instrs.old.items instrs.new.items result cursor.new (instr_at (levels_at levels) opcode cursor.old.left) }
{
    match opcode {
        0x02 | 0x03 => {
            let label = result_type(cursor)?;
            let mut body = Vec::new(alloc);
            whole(alloc, cursor, levels, &mut body)?;
            push_nested(instrs, opcode, label, body)
        }
        0x04 => {
            let label = result_type(cursor)?;
            let mut on_true = Vec::new(alloc);
            let end = sequence(alloc, cursor, levels, &mut on_true)?;
            let mut on_false = Vec::new(alloc);
            if end != END {
                whole(alloc, cursor, levels, &mut on_false)?;
            }
            push_if(instrs, label, on_true, on_false)
        }
        _ => push_plain(alloc, cursor, opcode, instrs),
    }
}

// A block, or with the opcode of a loop a loop.
#[inline(never)]
fn push_nested(
    instrs: &mut Vec<Instr>,
    opcode: u8,
    label: Option<ValType>,
    body: Vec<Instr>,
) -> Result<(), DecodeError>
    ensures block { opcode ≡ 2 → Pushes instrs.old.items instrs.new.items (instr.Block label body) result }
    ensures loops { opcode ≡ 3 → Pushes instrs.old.items instrs.new.items (instr.Loop label body) result }
{
    let nested = match opcode {
        0x03 => Instr::Loop(label, body),
        _ => Instr::Block(label, body),
    };
    instrs.push(nested)?;
    Ok(())
}

#[inline(never)]
fn push_if(
    instrs: &mut Vec<Instr>,
    label: Option<ValType>,
    on_true: Vec<Instr>,
    on_false: Vec<Instr>,
) -> Result<(), DecodeError>
    ensures { Pushes instrs.old.items instrs.new.items (instr.If label on_true on_false) result }
{
    instrs.push(Instr::If(label, on_true, on_false))?;
    Ok(())
}

#[inline(never)]
fn push_plain(
    alloc: Global,
    cursor: &mut Cursor,
    opcode: u8,
    instrs: &mut Vec<Instr>,
) -> Result<(), DecodeError>
    ensures { DecodesOnto instrs.old.items instrs.new.items result cursor.new (plain_at opcode cursor.old.left) }
{
    let next = plain(alloc, cursor, opcode)?;
    instrs.push(next)?;
    Ok(())
}

/// An instruction with none inside it, after its first byte.
#[tactic(auto, unfolding(crate::specs::Instrs::plain_at))]
fn plain(alloc: Global, cursor: &mut Cursor, opcode: u8) -> Result<Instr, DecodeError>
    ensures { DecodesTo tree result cursor.new (plain_at opcode cursor.old.left) }
{
    match opcode {
        0x00..=0x11 => control(alloc, cursor, opcode),
        0x12..=0x24 => variable_instr(cursor, opcode),
        0x25..=0x40 => memory(cursor, opcode),
        _ => numeric(cursor, opcode),
    }
}

/// A control instruction (section 5.4.1).
#[tactic(auto, unfolding(crate::specs::Instrs::control_at, crate::specs::Instrs::br_table_at, crate::specs::Instrs::indirect_at, crate::specs::Instrs::zero_at))]
fn control(alloc: Global, cursor: &mut Cursor, opcode: u8) -> Result<Instr, DecodeError>
    ensures { DecodesTo tree result cursor.new (control_at opcode cursor.old.left) }
{
    match opcode {
        0x00 => Ok(Instr::Unreachable),
        0x01 => Ok(Instr::Nop),
        0x0c => Ok(Instr::Br(number(cursor)?)),
        0x0d => Ok(Instr::BrIf(number(cursor)?)),
        0x0e => {
            let labels = vector::<IndexEntry>(alloc, cursor)?;
            Ok(Instr::BrTable(labels, number(cursor)?))
        }
        0x0f => Ok(Instr::Return),
        0x10 => Ok(Instr::CallFunc(number(cursor)?)),
        0x11 => {
            let type_index = number(cursor)?;
            exact_byte(cursor, 0x00)?;
            Ok(Instr::CallIndirect(type_index))
        }
        _ => Err(DecodeError::Malformed),
    }
}

/// A parametric instruction or one on variables (sections 5.4.2 and 5.4.3).
#[tactic(auto, unfolding(crate::specs::Instrs::variable_instr_at))]
fn variable_instr(cursor: &mut Cursor, opcode: u8) -> Result<Instr, DecodeError>
    ensures { DecodesTo tree result cursor.new (variable_instr_at opcode cursor.old.left) }
{
    match opcode {
        0x1a => Ok(Instr::DropTop),
        0x1b => Ok(Instr::Select),
        0x20 => Ok(Instr::LocalGet(number(cursor)?)),
        0x21 => Ok(Instr::LocalSet(number(cursor)?)),
        0x22 => Ok(Instr::LocalTee(number(cursor)?)),
        0x23 => Ok(Instr::GlobalGet(number(cursor)?)),
        0x24 => Ok(Instr::GlobalSet(number(cursor)?)),
        _ => Err(DecodeError::Malformed),
    }
}

/// A memory instruction (section 5.4.4).
#[tactic(auto, unfolding(crate::specs::Instrs::memory_at, crate::specs::Instrs::access_at, crate::specs::Instrs::zero_at))]
fn memory(cursor: &mut Cursor, opcode: u8) -> Result<Instr, DecodeError>
    ensures { DecodesTo tree result cursor.new (memory_at opcode cursor.old.left) }
{
    match opcode {
        0x28..=0x35 => {
            let align = number(cursor)?;
            let offset = number(cursor)?;
            Ok(Instr::Load {
                opcode,
                align,
                offset,
            })
        }
        0x36..=0x3e => {
            let align = number(cursor)?;
            let offset = number(cursor)?;
            Ok(Instr::Store {
                opcode,
                align,
                offset,
            })
        }
        0x3f => {
            exact_byte(cursor, 0x00)?;
            Ok(Instr::MemorySize)
        }
        0x40 => {
            exact_byte(cursor, 0x00)?;
            Ok(Instr::MemoryGrow)
        }
        _ => Err(DecodeError::Malformed),
    }
}

/// A numeric instruction (section 5.4.5).
#[tactic(auto, unfolding(crate::specs::Instrs::numeric_at))]
fn numeric(cursor: &mut Cursor, opcode: u8) -> Result<Instr, DecodeError>
    ensures { DecodesTo tree result cursor.new (numeric_at opcode cursor.old.left) }
{
    match opcode {
        0x41 => Ok(Instr::ConstI32(bits_of_i32(cursor)?)),
        0x42 => Ok(Instr::ConstI64(bits_of_i64(cursor)?)),
        0x43 => Ok(Instr::ConstF32(bits_of_f32(cursor)?)),
        0x44 => Ok(Instr::ConstF64(bits_of_f64(cursor)?)),
        0x45..=0xc4 => Ok(Instr::Op(opcode)),
        _ => Err(DecodeError::Malformed),
    }
}
