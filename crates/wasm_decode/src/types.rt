// Types (WebAssembly 1.0, section 5.3).
ghost use Rattle.std.specs.Prelude.{◌≡◌};
ghost use Rattle.wasm_types.specs.Modules.{func_type};
ghost use Rattle.wasm_decode.specs.inside.Decoding.{DecodesTo, DecodesAll};
ghost use Rattle.wasm_decode.specs.Values.{vector_at, val_type_of, val_type_at, result_type_at, func_type_at, limits_at, table_at, global_type_at};

use crate::error::DecodeError;
use crate::numbers::{byte, exact_byte, number};
use crate::vectors::{Entry, vector};
use fri_bytes::Cursor;
use std::alloc::Global;
use wasm_types::{FuncType, Limits, ValType};

/// The value type that a byte stands for.
#[tactic(auto, unfolding(crate::specs::Values::val_type_of))]
fn val_type_of(b: u8) -> Result<ValType, DecodeError>
    ensures { DecodesAll (λ type. type) result (val_type_of b) }
{
    match b {
        0x7f => Ok(ValType::I32),
        0x7e => Ok(ValType::I64),
        0x7d => Ok(ValType::F32),
        0x7c => Ok(ValType::F64),
        _ => Err(DecodeError::Malformed),
    }
}

#[tactic(auto, unfolding(crate::specs::Values::val_type_at))]
pub(crate) fn val_type(cursor: &mut Cursor) -> Result<ValType, DecodeError>
    ensures { DecodesTo (λ type. type) result cursor.new (val_type_at cursor.old.left) }
{
    let b = byte(cursor)?;
    val_type_of(b)
}

/// The result of a block.
#[tactic(auto, unfolding(crate::specs::Values::result_type_at))]
pub(crate) fn result_type(cursor: &mut Cursor) -> Result<Option<ValType>, DecodeError>
    ensures { DecodesTo (λ type. type) result cursor.new (result_type_at cursor.old.left) }
{
    match byte(cursor)? {
        0x40 => Ok(None),
        b => Ok(Some(val_type_of(b)?)),
    }
}

#[tactic(auto, unfolding(crate::specs::Values::func_type_at))]
fn func_type(alloc: Global, cursor: &mut Cursor) -> Result<FuncType, DecodeError>
    ensures { DecodesTo func_type result cursor.new (func_type_at cursor.old.left) }
{
    exact_byte(cursor, 0x60)?;
    let params = vector::<ValTypeEntry>(alloc, cursor)?;
    let results = vector::<ValTypeEntry>(alloc, cursor)?;
    Ok(FuncType { params, results })
}

#[tactic(auto, unfolding(crate::specs::Values::limits_at, crate::specs::Values::limits_of, crate::specs::Values::min_limits_at, crate::specs::Values::min_max_at))]
pub(crate) fn limits(cursor: &mut Cursor) -> Result<Limits, DecodeError>
    ensures { DecodesTo (λ limits. limits) result cursor.new (limits_at cursor.old.left) }
{
    match byte(cursor)? {
        0x00 => {
            let min = number(cursor)?;
            Ok(Limits { min, max: None })
        }
        0x01 => {
            let min = number(cursor)?;
            let max = Some(number(cursor)?);
            Ok(Limits { min, max })
        }
        _ => Err(DecodeError::Malformed),
    }
}

/// The type of a table.
#[tactic(auto, unfolding(crate::specs::Values::table_at))]
pub(crate) fn table(cursor: &mut Cursor) -> Result<Limits, DecodeError>
    ensures { DecodesTo (λ limits. limits) result cursor.new (table_at cursor.old.left) }
{
    exact_byte(cursor, 0x70)?;
    limits(cursor)
}

/// The type of a global, and whether it is mutable.
#[tactic(auto, unfolding(crate::specs::Values::global_type_at, crate::specs::Values::mutable_at, crate::specs::Values::mutable_of))]
pub(crate) fn global_type(cursor: &mut Cursor) -> Result<(ValType, bool), DecodeError>
    ensures { DecodesTo (λ type. type) result cursor.new (global_type_at cursor.old.left) }
{
    let value_type = val_type(cursor)?;
    match byte(cursor)? {
        0x00 => Ok((value_type, false)),
        0x01 => Ok((value_type, true)),
        _ => Err(DecodeError::Malformed),
    }
}

// What vectors of types hold.

pub(crate) struct ValTypeEntry;

impl Entry for ValTypeEntry {
    ghost use Rattle.wasm_types.specs.declared.code.ValType.{ValType};
    ghost use Rattle.wasm_decode.specs.Values.{val_type_at};

    type Value = ValType;

    ghost Shown = { ValType };

    ghost view = { λ type. type };

    ghost read_at = { val_type_at };

    fn read(_alloc: Global, cursor: &mut Cursor) -> Result<ValType, DecodeError> {
        val_type(cursor)
    }
}

pub(crate) struct FuncTypeEntry;

impl Entry for FuncTypeEntry {
    ghost use Rattle.wasm_types.specs.Modules.{FuncType, func_type};
    ghost use Rattle.wasm_decode.specs.Values.{func_type_at};

    type Value = FuncType;

    ghost Shown = { FuncType };

    ghost view = { func_type };

    ghost read_at = { func_type_at };

    fn read(alloc: Global, cursor: &mut Cursor) -> Result<FuncType, DecodeError> {
        func_type(alloc, cursor)
    }
}

pub(crate) struct TableEntry;

impl Entry for TableEntry {
    ghost use Rattle.wasm_types.specs.declared.modules.Limits.{Limits};
    ghost use Rattle.wasm_decode.specs.Values.{table_at};

    type Value = Limits;

    ghost Shown = { Limits };

    ghost view = { λ limits. limits };

    ghost read_at = { table_at };

    fn read(_alloc: Global, cursor: &mut Cursor) -> Result<Limits, DecodeError> {
        table(cursor)
    }
}

pub(crate) struct MemoryEntry;

impl Entry for MemoryEntry {
    ghost use Rattle.wasm_types.specs.declared.modules.Limits.{Limits};
    ghost use Rattle.wasm_decode.specs.Values.{limits_at};

    type Value = Limits;

    ghost Shown = { Limits };

    ghost view = { λ limits. limits };

    ghost read_at = { limits_at };

    fn read(_alloc: Global, cursor: &mut Cursor) -> Result<Limits, DecodeError> {
        limits(cursor)
    }
}
