// What a load reads of a node's memory.
ghost use Rattle.std.specs.Prelude.{◌≡◌, ◌+◌, ◌<◌, ◌≤◌, ◌^◌, length, option_and_then, option_map, take};
ghost use Rattle.guest_memory.specs.Memory.{put_piece};
ghost use Rattle.watch_expr.specs.Value.{byte_count, loaded_at, value_of_bytes};
ghost use Rattle.watch_expr.specs.View.{bytes_of_node};

use crate::value::places::within;
use crate::view::View;
use expression_text::Width;

pub(crate) fn load<V: View>(v: &V, node: Option<u32>, width: Width, addr: i64) -> Option<i64>
    ensures { result ≡ option_and_then (λ k. loaded_at (V.nodes v.now) k width addr) node }
{
    let node = within(v, node)?;
    let addr = u64::try_from(addr).ok()?;
    let bytes = piece(v, node, addr, byte_count(width))?;
    Some(loaded_value(width, bytes))
}

// So many bytes, at the front of the array. A part of memory ends with its watch page, so there are two
// of them where the load goes past the page's end.
fn piece<V: View>(v: &V, node: u32, addr: u64, count: u64) -> Option<[u8; 8]>
    requires there { node < length (V.nodes v.now) }
    requires few { count ≤ 8 }
    requires low { addr < 2 ^ 63 }
    ensures { option_map (λ bytes. take count bytes) result ≡ bytes_of_node (V.nodes v.now) node addr count }
{
    let mut bytes = [0; 8];
    let first = v.lent(node, addr, count)?;
    put(&mut bytes, 0, first);
    let at = first.len() as u64;
    if at < count {
        let rest = v.lent(node, addr + at, count - at)?;
        put(&mut bytes, first.len(), rest);
    }
    Some(bytes)
}

// Writes the piece from `at` on.
fn put(bytes: &mut [u8], at: usize, piece: &[u8])
    requires { at + length piece.now ≤ length bytes.old }
    ensures { bytes.new ≡ put_piece bytes.old at piece.now }
{
    let end = at + piece.len();
    bytes[at..end].copy_from_slice(piece);
}

pub(crate) fn byte_count(width: Width) -> u64
    ensures { result ≡ byte_count width }
{
    match width {
        Width::U8 | Width::I8 => 1,
        Width::U16 | Width::I16 => 2,
        Width::U32 | Width::I32 => 4,
        Width::I64 => 8,
    }
}

// The value that so many bytes at the front stand for, the lowest first.
fn loaded_value(width: Width, bytes: [u8; 8]) -> i64
    ensures { result ≡ value_of_bytes width (take (byte_count width) bytes) }
{
    let [a, b, c, d, ..] = bytes;
    match width {
        Width::U8 => i64::from(a),
        Width::U16 => i64::from(u16::from_le_bytes([a, b])),
        Width::U32 => i64::from(u32::from_le_bytes([a, b, c, d])),
        Width::I8 => i64::from(a.cast_signed()),
        Width::I16 => i64::from(i16::from_le_bytes([a, b])),
        Width::I32 => i64::from(i32::from_le_bytes([a, b, c, d])),
        Width::I64 => i64::from_le_bytes(bytes),
    }
}
