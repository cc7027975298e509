// Conversions between the widths.
ghost use Rattle.std.specs.Prelude.{◌≡◌};
ghost use Rattle.std.specs.Int.{w8, w16, w32, w64};
ghost use Rattle.wasm_num.specs.Operators.{extend_s, extend_u, iextend_s, wrap};

/// The lowest 32 bits.
pub fn i32_wrap_i64(a: u64) -> u32
    ensures { result ≡ wrap w32 a }
{
    (a & 0xffff_ffff) as u32
}

/// The same signed number.
pub fn i64_extend_i32_s(a: u32) -> u64
    ensures { result ≡ extend_s w32 w64 a }
{
    i64::from(a.cast_signed()).cast_unsigned()
}

/// The same unsigned number.
pub fn i64_extend_i32_u(a: u32) -> u64
    ensures { result ≡ extend_u a }
{
    u64::from(a)
}

/// The signed number of the lowest 8 bits.
pub fn i32_extend8_s(a: u32) -> u32
    ensures { result ≡ iextend_s w8 w32 a }
{
    i32::from(((a & 0xff) as u8).cast_signed()).cast_unsigned()
}

/// The signed number of the lowest 16 bits.
pub fn i32_extend16_s(a: u32) -> u32
    ensures { result ≡ iextend_s w16 w32 a }
{
    i32::from(((a & 0xffff) as u16).cast_signed()).cast_unsigned()
}

/// The signed number of the lowest 8 bits.
pub fn i64_extend8_s(a: u64) -> u64
    ensures { result ≡ iextend_s w8 w64 a }
{
    i64::from(((a & 0xff) as u8).cast_signed()).cast_unsigned()
}

/// The signed number of the lowest 16 bits.
pub fn i64_extend16_s(a: u64) -> u64
    ensures { result ≡ iextend_s w16 w64 a }
{
    i64::from(((a & 0xffff) as u16).cast_signed()).cast_unsigned()
}

/// The signed number of the lowest 32 bits.
pub fn i64_extend32_s(a: u64) -> u64
    ensures { result ≡ iextend_s w32 w64 a }
{
    i64_extend_i32_s(i32_wrap_i64(a))
}
