// The sends that count.
ghost use Rattle.std.specs.Prelude.{◌≡◌, OnOk};
ghost use Rattle.std.specs.FinMap as map;
ghost use Rattle.byte_streams.specs.inside.Keeping.{is_front_of_sent};
ghost use Rattle.byte_streams.specs.Meanings.{piece_of};

use crate::chunk::Chunk;
use std::alloc::{AllocError, Global};
use std::collections::BTreeMap;
use std::marker::Model;

// Of a send that counts: where it goes to, its stream, its offset, and how many bytes it has, which are part of what was
// written.
#[derive(Clone, Copy)]
pub(crate) struct SentChunk {
    pub(crate) to: u32,
    pub(crate) stream: u16,
    pub(crate) offset: u64,
    pub(crate) count: u64,
}

impl SentChunk {
    fn has_place_of(&self, by: u32, chunk: &Chunk<'_>) -> bool
        ensures { result ≡ is_front_of_sent by (piece_of chunk.now) (Some self.now) }
    {
        self.to == by
            && self.stream == chunk.stream
            && self.offset == chunk.offset
            && chunk.bytes.len() as u64 <= self.count
    }
}

// By process and clock.
#[derive(Drop)]
pub(crate) struct SendMap {
    chunks: BTreeMap<(u32, u64), SentChunk>,
}

impl Model for SendMap {
    ghost use Rattle.std.specs.FinMap as map;
    ghost use Rattle.byte_streams.specs.Keys.{Chunks, chunks_code};

    ghost Value = { Chunks };

    ghost coded = { chunks_code };

    ghost view = { λ sends. map.from_entries sends.chunks.entries };
}

impl SendMap {
    // No sends.
    pub(crate) fn new(alloc: Global) -> SendMap
        ensures { result ≡ map.empty }
    {
        SendMap {
            chunks: BTreeMap::new(alloc),
        }
    }

    // The send that this process made at this clock.
    pub(crate) fn add(&mut self, from: u32, clock: u64, chunk: SentChunk) -> Result<(), AllocError>
        ensures { OnOk result (self.new ≡ map.insert self.old (from, clock) chunk) }
    {
        self.chunks.insert((from, clock), chunk)?;
        Ok(())
    }

    // Whether a piece that a process takes has the place of the send that another made at this clock, and not more bytes.
    pub(crate) fn is_within(&self, from: u32, clock: u64, by: u32, chunk: &Chunk<'_>) -> bool
        ensures { result ≡ is_front_of_sent by (piece_of chunk.now) (map.get self.now (from, clock)) }
    {
        let Some(sent) = self.chunks.get(&(from, clock)) else {
            return false;
        };
        sent.has_place_of(by, chunk)
    }
}
