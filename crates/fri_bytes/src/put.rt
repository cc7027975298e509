// Writing bytes and numbers at the end of a vector.
ghost use Rattle.std.specs.Prelude.{◌≡◌, [], ◌∷◌, ◌++◌, OnOk, OnErr};
ghost use Rattle.std.specs.Int.{w16, w32, w64, to_le_bytes};

use std::alloc::AllocError;

/// Adds one byte.
#[inline(always)]
pub fn put_byte(out: &mut Vec<u8>, v: u8) -> Result<(), AllocError>
    ensures ok { OnOk result (out.new.items ≡ out.old.items ++ v ∷ []) }
    ensures err { OnErr result (out.new.items ≡ out.old.items) }
{
    Ok(out.push(v)?)
}

/// Adds the 2 bytes of the number, the lowest first.
pub fn put_u16(out: &mut Vec<u8>, v: u16) -> Result<(), AllocError>
    ensures ok { OnOk result (out.new.items ≡ out.old.items ++ to_le_bytes w16 v) }
    ensures err { OnErr result (out.new.items ≡ out.old.items) }
{
    let spelling: [u8; 2] = v.to_le_bytes();
    out.extend_from_slice(&spelling)
}

/// Adds the 4 bytes of the number, the lowest first.
pub fn put_u32(out: &mut Vec<u8>, v: u32) -> Result<(), AllocError>
    ensures ok { OnOk result (out.new.items ≡ out.old.items ++ to_le_bytes w32 v) }
    ensures err { OnErr result (out.new.items ≡ out.old.items) }
{
    let spelling: [u8; 4] = v.to_le_bytes();
    out.extend_from_slice(&spelling)
}

/// Adds the 8 bytes of the number, the lowest first.
pub fn put_u64(out: &mut Vec<u8>, v: u64) -> Result<(), AllocError>
    ensures ok { OnOk result (out.new.items ≡ out.old.items ++ to_le_bytes w64 v) }
    ensures err { OnErr result (out.new.items ≡ out.old.items) }
{
    let spelling: [u8; 8] = v.to_le_bytes();
    out.extend_from_slice(&spelling)
}

/// Adds the piece.
#[inline(always)]
pub fn put_bytes(out: &mut Vec<u8>, piece: &[u8]) -> Result<(), AllocError>
    ensures ok { OnOk result (out.new.items ≡ out.old.items ++ piece.now) }
    ensures err { OnErr result (out.new.items ≡ out.old.items) }
{
    out.extend_from_slice(piece)
}
