// A piece of a stream, as the payload of a datagram.
ghost use Rattle.std.specs.Prelude.{◌≡◌, IfNone, IfSome, option_map};
ghost use Rattle.byte_streams.specs.Chunk.{IsChunk, IsNoChunk, chunk_at};
ghost use Rattle.byte_streams.specs.Meanings.{piece_of};

use byteorder::{ByteOrder, LittleEndian};

const MAGIC: [u8; 4] = *b"STRM";

// The length of what comes before a piece's own bytes.
const HEAD_LENGTH: usize = 14;

/// A piece of a stream: the stream's number, how many bytes of it come before, and the bytes, which are part of the payload.
#[derive(Clone, Copy)]
pub struct Chunk<'a> {
    pub stream: u16,
    pub offset: u64,
    pub bytes: &'a [u8],
}

/// The piece that a payload carries. None comes exactly where it is no chunk: the bytes `STRM`, the stream's number in two
/// bytes and the offset in eight, the lowest byte first, and any bytes after them.
pub fn read_chunk(payload: &[u8]) -> Option<Chunk<'_>>
    ensures chunk { IfSome result (λ c. IsChunk payload.now (piece_of c)) }
    ensures none { IfNone result (IsNoChunk payload.now) }
    ensures value { option_map piece_of result ≡ chunk_at payload.now }
{
    if payload.len() < HEAD_LENGTH || !payload.starts_with(&MAGIC) {
        return None;
    }
    Some(Chunk {
        stream: LittleEndian::read_u16(&payload[4..]),
        offset: LittleEndian::read_u64(&payload[6..]),
        bytes: &payload[HEAD_LENGTH..],
    })
}
