// The streams of a group.
ghost use Rattle.std.specs.Prelude.{◌≡◌, ◌∷◌, [], None, IfOk, List, option_map};
ghost use Rattle.std.specs.FinMap as map;
ghost use Rattle.byte_streams.specs.Lines.{stream_lines, read_of};
ghost use Rattle.byte_streams.specs.Stands.{StandsFor};
ghost use Rattle.byte_streams.specs.Traffic.{Received, ReceivedPayload, SentPayload, Sent, SendOrReceive, mark_of_receive, mark_of_send};

use crate::chunk::read_chunk;
use crate::line::StreamLine;
use crate::mark::PayloadMark;
use crate::send_map::{SendMap, SentChunk};
use crate::stream_map::StreamMap;
use lamport_tag::Tag;
use std::alloc::{AllocError, Global};
use std::marker::Model;

/// What is kept of the sends and receives so far. After want of memory it is not used again.
#[derive(Drop)]
pub struct Streams {
    streams: StreamMap,
    sends: SendMap,
}

impl Model for Streams {
    ghost use Rattle.byte_streams.specs.Stands.{KeptTraffic, kept_traffic_code};

    ghost Value = { KeptTraffic };

    ghost coded = { kept_traffic_code };

    ghost view = { λ s. record { streams = s.streams; sends = s.sends } };
}

impl Streams {
    /// No sends and no receives.
    pub fn new(alloc: Global) -> Streams
        ensures { StandsFor result [] }
    {
        Streams {
            streams: StreamMap::new(alloc),
            sends: SendMap::new(alloc),
        }
    }

    /// A process sent a payload to another at this clock, at which no send of it is kept. After want of memory a part
    /// of what it changes may stand, and the streams are not used again.
    pub fn add_sent(
        &mut self,
        from: u32,
        clock: u64,
        to: u32,
        payload: &[u8],
    ) -> Result<PayloadMark, AllocError>
        requires { map.get self.old.sends (from, clock) ≡ None }
        ensures { let s : SentPayload = record { from = from; clock = clock; to = to; payload = payload.now } in IfOk result (λ mark. (early : List SendOrReceive) → StandsFor self.old early → StandsFor self.new (Sent s ∷ early) × (mark ≡ mark_of_send s early)) }
    {
        let Some(chunk) = read_chunk(payload) else {
            return Ok(PayloadMark::Plain);
        };
        if !self.streams.write(from, to, &chunk)? {
            return Ok(PayloadMark::Strange);
        }
        let sent = SentChunk {
            to,
            stream: chunk.stream,
            offset: chunk.offset,
            count: chunk.bytes.len() as u64,
        };
        self.sends.add(from, clock, sent)?;
        Ok(PayloadMark::Counted)
    }

    /// A process took a payload after this tag. The streams are not used again after want of memory.
    pub fn add_received(
        &mut self,
        by: u32,
        tag: Tag,
        payload: &[u8],
    ) -> Result<PayloadMark, AllocError>
        ensures { let r : ReceivedPayload = record { by = by; tag = tag; payload = payload.now } in IfOk result (λ mark. (early : List SendOrReceive) → StandsFor self.old early → StandsFor self.new (Received r ∷ early) × (mark ≡ mark_of_receive r early)) }
    {
        let Some(chunk) = read_chunk(payload) else {
            return Ok(PayloadMark::Plain);
        };
        if !self.sends.is_within(tag.sender, tag.clock, by, &chunk)
            || !self.streams.cover(tag.sender, by, &chunk)
        {
            return Ok(PayloadMark::Strange);
        }
        Ok(PayloadMark::Counted)
    }

    /// A line for each stream with a send that counts.
    pub fn lines(&self, alloc: Global) -> Result<Vec<StreamLine>, AllocError>
        ensures { IfOk result (λ lines. lines.items ≡ stream_lines self.now.streams) }
    {
        self.streams.lines(alloc)
    }

    /// The bytes that were read of a stream, a part of those that were written. None comes exactly where there is no such
    /// stream.
    pub fn read_bytes(&self, from: u32, to: u32, stream: u16) -> Option<&[u8]>
        ensures { option_map (λ bytes. bytes.now) result ≡ option_map read_of (map.get self.now.streams (from, (to, stream))) }
    {
        self.streams.read_bytes(from, to, stream)
    }
}
