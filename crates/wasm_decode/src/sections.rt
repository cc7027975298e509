// Sections (WebAssembly 1.0, sections 5.5.2, 5.5.3 and 5.5.15).
ghost use Rattle.std.specs.Prelude.{◌≡◌, [], None, map, option_map};
ghost use Rattle.wasm_types.specs.Modules.{func};
ghost use Rattle.wasm_decode.specs.inside.Decoding.{DecodesTo, DecodesAll, PassesOver};
ghost use Rattle.wasm_decode.specs.Values.{vector_at, whole_read, sized_at};
ghost use Rattle.wasm_decode.specs.Entries.{start_at, code_at};
ghost use Rattle.wasm_decode.specs.Sections.{custom_name_of, starts_with_byte, customs_at, contents_at, section_at, header_at};

use crate::error::DecodeError;
use crate::functions::code;
use crate::numbers::{byte, end, number};
use crate::vectors::{Entry, byte_vector, utf8_name, vector};
use fri_bytes::Cursor;
use std::alloc::Global;
use wasm_types::Func;

/// `\0asm` and the version.
const HEADER: [u8; 8] = [0x00, 0x61, 0x73, 0x6d, 0x01, 0x00, 0x00, 0x00];

#[tactic(auto, unfolding(crate::specs::Sections::header_at))]
pub(crate) fn header(cursor: &mut Cursor) -> Result<(), DecodeError>
    ensures { PassesOver result cursor.new (header_at cursor.old.left) }
{
    if !cursor.rest().starts_with(&HEADER) {
        return Err(DecodeError::Malformed);
    }
    cursor.take(8).ok_or(DecodeError::Malformed)?;
    Ok(())
}

/// The name at the front of a custom section's contents. What follows it is ignored.
#[tactic(auto, unfolding(crate::specs::Sections::custom_name_of))]
fn custom_name(contents: &[u8]) -> Result<&[u8], DecodeError>
    ensures { DecodesAll (λ name. name.now) result (custom_name_of contents.now) }
{
    let mut cursor = Cursor::new(contents);
    utf8_name(&mut cursor)
}

/// A custom section after its id.
#[tactic(auto, unfolding(crate::specs::Values::sized_at))]
fn custom<'a>(cursor: &mut Cursor<'a>) -> Result<&'a [u8], DecodeError>
    ensures { DecodesTo (λ name. name.now) result cursor.new (sized_at custom_name_of cursor.old.left) }
{
    let contents = byte_vector(cursor)?;
    custom_name(contents)
}

/// Whether this byte is the next one.
fn is_next(cursor: &Cursor, byte: u8) -> bool
    ensures { result ≡ starts_with_byte byte cursor.now.left }
{
    match cursor.rest() {
        [first, ..] => *first == byte,
        [] => false,
    }
}

/// Passes over custom sections.
pub(crate) fn customs(cursor: &mut Cursor) -> Result<(), DecodeError>
    ensures { PassesOver result cursor.new (customs_at cursor.old.left) }
{
    fri_bytes::laws::exact_readers();
    while is_next(cursor, 0) {
        byte(cursor)?;
        custom(cursor)?;
    }
    Ok(())
}

/// The contents of the section with this id, after custom sections, or nothing where it is absent.
#[tactic(auto, unfolding(crate::specs::Sections::contents_at))]
fn contents<'a>(cursor: &mut Cursor<'a>, id: u8) -> Result<Option<&'a [u8]>, DecodeError>
    ensures { DecodesTo (option_map (λ contents. contents.now)) result cursor.new (contents_at id cursor.old.left) }
{
    customs(cursor)?;
    if !is_next(cursor, id) {
        return Ok(None);
    }
    byte(cursor)?;
    Ok(Some(byte_vector(cursor)?))
}

/// The vector that all of the bytes spell.
#[tactic(auto, unfolding(crate::specs::Values::whole_read))]
fn whole_vector<E: Entry>(alloc: Global, contents: &[u8]) -> Result<Vec<E::Value>, DecodeError>
    ensures { DecodesAll (λ v. map E.view v.items) result (whole_read (vector_at E.read_at) contents.now) }
{
    let mut cursor = Cursor::new(contents);
    let found = vector::<E>(alloc, &mut cursor)?;
    end(&cursor)?;
    Ok(found)
}

/// The vector in the section with this id, which is empty where the section is absent.
#[tactic(auto, unfolding(crate::specs::Sections::section_at))]
pub(crate) fn section<E: Entry>(
    alloc: Global,
    cursor: &mut Cursor,
    id: u8,
) -> Result<Vec<E::Value>, DecodeError>
    ensures { DecodesTo (λ v. map E.view v.items) result cursor.new (section_at id [] (vector_at E.read_at) cursor.old.left) }
{
    match contents(cursor, id)? {
        Some(contents) => whole_vector::<E>(alloc, contents),
        None => Ok(Vec::new(alloc)),
    }
}

#[tactic(auto, unfolding(crate::specs::Values::whole_read, crate::specs::Entries::start_at))]
fn whole_start(contents: &[u8]) -> Result<Option<u32>, DecodeError>
    ensures { DecodesAll (λ func. func) result (whole_read start_at contents.now) }
{
    let mut cursor = Cursor::new(contents);
    let func = number(&mut cursor)?;
    end(&cursor)?;
    Ok(Some(func))
}

/// The start section (section 5.5.11).
#[tactic(auto, unfolding(crate::specs::Sections::section_at))]
pub(crate) fn start_section(cursor: &mut Cursor) -> Result<Option<u32>, DecodeError>
    ensures { DecodesTo (λ func. func) result cursor.new (section_at 8 None start_at cursor.old.left) }
{
    match contents(cursor, 8)? {
        Some(contents) => whole_start(contents),
        None => Ok(None),
    }
}

#[tactic(auto, unfolding(crate::specs::Values::whole_read))]
fn whole_code(alloc: Global, contents: &[u8], indices: &[u32]) -> Result<Vec<Func>, DecodeError>
    ensures { DecodesAll (λ v. map func v.items) result (whole_read (code_at indices.now) contents.now) }
{
    let mut cursor = Cursor::new(contents);
    let funcs = code(alloc, &mut cursor, indices)?;
    end(&cursor)?;
    Ok(funcs)
}

/// The code section, whose functions have the types with these indices.
#[tactic(auto, unfolding(crate::specs::Sections::section_at))]
pub(crate) fn code_section(
    alloc: Global,
    cursor: &mut Cursor,
    indices: &[u32],
) -> Result<Vec<Func>, DecodeError>
    ensures { DecodesTo (λ v. map func v.items) result cursor.new (section_at 10 [] (code_at indices.now) cursor.old.left) }
{
    match contents(cursor, 10)? {
        Some(contents) => whole_code(alloc, contents, indices),
        None => Ok(Vec::new(alloc)),
    }
}
