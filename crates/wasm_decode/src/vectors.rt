// Vectors and names (WebAssembly 1.0, sections 5.1.3 and 5.2.4). Nothing is set aside for a count, so one
// with nothing after it costs nothing.
ghost use Rattle.std.specs.Prelude.{◌≡◌, ℕ, List, Option, map};
ghost use Rattle.std.specs.Str.{is_utf8};
ghost use Rattle.wasm_decode.specs.inside.Decoding.{DecodesTo};
ghost use Rattle.wasm_decode.specs.Values.{each_at, vector_at, byte_vector_at, utf8_name_at};

use crate::error::DecodeError;
use crate::numbers::number;
use fri_bytes::Cursor;
use std::alloc::Global;

/// What is in a vector, and how it is read.
pub(crate) trait Entry {
    type Value: Drop;

    ghost Shown: { Type 0 };

    ghost view: { Self.Value → Shown };

    ghost read_at: { List ℕ → Option (Shown × List ℕ) };

    fn read(alloc: Global, cursor: &mut Cursor) -> Result<Self::Value, DecodeError>
        ensures { DecodesTo view result cursor.new (read_at cursor.old.left) };
}

/// So many entries.
fn entries<E: Entry>(
    alloc: Global,
    cursor: &mut Cursor,
    count: u32,
) -> Result<Vec<E::Value>, DecodeError>
    ensures { DecodesTo (λ v. map E.view v.items) result cursor.new (each_at E.read_at count cursor.old.left) }
{
    let mut found = Vec::new(alloc);
    for _ in 0..count {
        found.push(E::read(alloc, cursor)?)?;
    }
    Ok(found)
}

/// A count, and that many entries.
#[tactic(auto, unfolding(crate::specs::Values::vector_at))]
pub(crate) fn vector<E: Entry>(
    alloc: Global,
    cursor: &mut Cursor,
) -> Result<Vec<E::Value>, DecodeError>
    ensures { DecodesTo (λ v. map E.view v.items) result cursor.new (vector_at E.read_at cursor.old.left) }
{
    let count = number(cursor)?;
    entries::<E>(alloc, cursor, count)
}

/// A vector of bytes, as a piece of the bytes that are read.
#[tactic(auto, unfolding(crate::specs::Values::byte_vector_at))]
pub(crate) fn byte_vector<'a>(cursor: &mut Cursor<'a>) -> Result<&'a [u8], DecodeError>
    ensures { DecodesTo (λ piece. piece.now) result cursor.new (byte_vector_at cursor.old.left) }
{
    let size = number(cursor)?;
    cursor.take(size as usize).ok_or(DecodeError::Malformed)
}

/// A name.
#[tactic(auto, unfolding(crate::specs::Values::utf8_name_at))]
pub(crate) fn utf8_name<'a>(cursor: &mut Cursor<'a>) -> Result<&'a [u8], DecodeError>
    ensures { DecodesTo (λ name. name.now) result cursor.new (utf8_name_at cursor.old.left) }
{
    let name = byte_vector(cursor)?;
    if !is_utf8(name) {
        return Err(DecodeError::Malformed);
    }
    Ok(name)
}

fn is_utf8(bytes: &[u8]) -> bool
    ensures { result ≡ is_utf8 bytes.now }
{
    str::from_utf8(bytes).is_ok()
}

/// An index.
pub(crate) struct IndexEntry;

impl Entry for IndexEntry {
    ghost use Rattle.std.specs.Prelude.{ℕ};
    ghost use Rattle.wasm_decode.specs.Values.{u32_at};

    type Value = u32;

    ghost Shown = { ℕ };

    ghost view = { λ n. n };

    ghost read_at = { u32_at };

    fn read(_alloc: Global, cursor: &mut Cursor) -> Result<u32, DecodeError> {
        number(cursor)
    }
}
