// Bytes and numbers (WebAssembly 1.0, section 5.2).
ghost use Rattle.std.specs.Prelude.{◌≡◌};
ghost use Rattle.fri_bytes.specs.Reading.{byte_at};
ghost use Rattle.wasm_decode.specs.inside.Decoding.{DecodesTo, DecodesAll, PassesOver};
ghost use Rattle.wasm_decode.specs.Values.{u32_at, i32_at, i64_at, f32_at, f64_at, exact_byte_at, end_of};

use crate::error::DecodeError;
use fri_bytes::Cursor;

pub(crate) fn byte(cursor: &mut Cursor) -> Result<u8, DecodeError>
    ensures { DecodesTo (λ b. b) result cursor.new (byte_at cursor.old.left) }
{
    cursor.byte().ok_or(DecodeError::Malformed)
}

/// A byte that has to be there.
#[tactic(auto, unfolding(crate::specs::Values::exact_byte_at))]
pub(crate) fn exact_byte(cursor: &mut Cursor, tag: u8) -> Result<(), DecodeError>
    ensures { PassesOver result cursor.new (exact_byte_at tag cursor.old.left) }
{
    if byte(cursor)? != tag {
        return Err(DecodeError::Malformed);
    }
    Ok(())
}

/// The end of the bytes.
#[tactic(auto, unfolding(crate::specs::Values::end_of))]
pub(crate) fn end(cursor: &Cursor) -> Result<(), DecodeError>
    ensures { DecodesAll (λ unit. unit) result (end_of cursor.now.left) }
{
    if !cursor.rest().is_empty() {
        return Err(DecodeError::Malformed);
    }
    Ok(())
}

pub(crate) fn number(cursor: &mut Cursor) -> Result<u32, DecodeError>
    ensures { DecodesTo (λ n. n) result cursor.new (u32_at cursor.old.left) }
{
    cursor.leb_u32().ok_or(DecodeError::Malformed)
}

/// The bits of a signed number of 32 bits.
#[tactic(auto, unfolding(crate::specs::Values::i32_at))]
pub(crate) fn bits_of_i32(cursor: &mut Cursor) -> Result<u32, DecodeError>
    ensures { DecodesTo (λ n. n) result cursor.new (i32_at cursor.old.left) }
{
    match cursor.leb_s32() {
        Some(number) => Ok(number.cast_unsigned()),
        None => Err(DecodeError::Malformed),
    }
}

/// The bits of a signed number of 64 bits.
#[tactic(auto, unfolding(crate::specs::Values::i64_at))]
pub(crate) fn bits_of_i64(cursor: &mut Cursor) -> Result<u64, DecodeError>
    ensures { DecodesTo (λ n. n) result cursor.new (i64_at cursor.old.left) }
{
    match cursor.leb_s64() {
        Some(number) => Ok(number.cast_unsigned()),
        None => Err(DecodeError::Malformed),
    }
}

/// The bits of a float of 32 bits.
pub(crate) fn bits_of_f32(cursor: &mut Cursor) -> Result<u32, DecodeError>
    ensures { DecodesTo (λ n. n) result cursor.new (f32_at cursor.old.left) }
{
    cursor.u32_le().ok_or(DecodeError::Malformed)
}

/// The bits of a float of 64 bits.
pub(crate) fn bits_of_f64(cursor: &mut Cursor) -> Result<u64, DecodeError>
    ensures { DecodesTo (λ n. n) result cursor.new (f64_at cursor.old.left) }
{
    cursor.u64_le().ok_or(DecodeError::Malformed)
}
