// The code section: locals and bodies of functions (WebAssembly 1.0, section 5.5.13).
ghost use Rattle.std.specs.Prelude.{◌≡◌, map};
ghost use Rattle.wasm_types.specs.Modules.{func};
ghost use Rattle.wasm_decode.specs.inside.Decoding.{DecodesTo, DecodesAll};
ghost use Rattle.wasm_decode.specs.Values.{sized_at, whole_read};
ghost use Rattle.wasm_decode.specs.Entries.{are_few_locals, locals_at, func_at, funcs_at, code_at};

use crate::error::DecodeError;
use crate::instructions::expression;
use crate::numbers::{end, number};
use crate::types::val_type;
use crate::vectors::{Entry, byte_vector, vector};
use fri_bytes::Cursor;
use std::alloc::Global;
use wasm_types::{Func, ValType};

/// Locals of one type, as their count and the type.
#[tactic(auto, unfolding(crate::specs::Entries::locals_at))]
fn locals(cursor: &mut Cursor) -> Result<(u32, ValType), DecodeError>
    ensures { DecodesTo (λ locals. locals) result cursor.new (locals_at cursor.old.left) }
{
    let count = number(cursor)?;
    Ok((count, val_type(cursor)?))
}

struct LocalsEntry;

impl Entry for LocalsEntry {
    ghost use Rattle.std.specs.Prelude.{ℕ};
    ghost use Rattle.wasm_types.specs.declared.code.ValType.{ValType};
    ghost use Rattle.wasm_decode.specs.Entries.{locals_at};

    type Value = (u32, ValType);

    ghost Shown = { ℕ × ValType };

    ghost view = { λ locals. locals };

    ghost read_at = { locals_at };

    fn read(_alloc: Global, cursor: &mut Cursor) -> Result<(u32, ValType), DecodeError> {
        locals(cursor)
    }
}

/// Whether there are fewer than 2 ^ 32 locals.
fn are_few_locals(locals: &[(u32, ValType)]) -> bool
    ensures { result ≡ are_few_locals locals.now }
{
    let mut total: u32 = 0;
    for (count, _) in locals {
        match total.checked_add(*count) {
            Some(sum) => total = sum,
            None => return false,
        }
    }
    true
}

#[tactic(auto, unfolding(crate::specs::Entries::func_at))]
fn func(alloc: Global, cursor: &mut Cursor, type_index: u32) -> Result<Func, DecodeError>
    ensures { DecodesTo func result cursor.new (func_at type_index cursor.old.left) }
{
    let locals = vector::<LocalsEntry>(alloc, cursor)?;
    if !are_few_locals(&locals) {
        return Err(DecodeError::Malformed);
    }
    let body = expression(alloc, cursor)?;
    Ok(Func {
        type_index,
        locals,
        body,
    })
}

/// The function that all of the bytes spell.
#[tactic(auto, unfolding(crate::specs::Values::whole_read))]
fn whole_func(alloc: Global, contents: &[u8], type_index: u32) -> Result<Func, DecodeError>
    ensures { DecodesAll func result (whole_read (func_at type_index) contents.now) }
{
    let mut cursor = Cursor::new(contents);
    let func = func(alloc, &mut cursor, type_index)?;
    end(&cursor)?;
    Ok(func)
}

/// A size, and a function of that many bytes.
#[tactic(auto, unfolding(crate::specs::Values::sized_at))]
fn sized_func(alloc: Global, cursor: &mut Cursor, type_index: u32) -> Result<Func, DecodeError>
    ensures { DecodesTo func result cursor.new (sized_at (whole_read (func_at type_index)) cursor.old.left) }
{
    let contents = byte_vector(cursor)?;
    whole_func(alloc, contents, type_index)
}

/// A function for each index of a type.
fn funcs(alloc: Global, cursor: &mut Cursor, indices: &[u32]) -> Result<Vec<Func>, DecodeError>
    ensures { DecodesTo (λ v. map func v.items) result cursor.new (funcs_at indices.now cursor.old.left) }
{
    let mut found = Vec::new(alloc);
    for index in indices {
        found.push(sized_func(alloc, cursor, *index)?)?;
    }
    Ok(found)
}

/// A vector of functions, which has to have as many as there are indices of their types.
#[tactic(auto, unfolding(crate::specs::Entries::code_at))]
pub(crate) fn code(
    alloc: Global,
    cursor: &mut Cursor,
    indices: &[u32],
) -> Result<Vec<Func>, DecodeError>
    ensures { DecodesTo (λ v. map func v.items) result cursor.new (code_at indices.now cursor.old.left) }
{
    let count = number(cursor)?;
    if count as usize != indices.len() {
        return Err(DecodeError::Malformed);
    }
    funcs(alloc, cursor, indices)
}
