// The streams by their names.
ghost use Rattle.std.specs.Prelude.{◌≡◌, [], IfOk, OnOk, option_map, if◌then◌else◌};
ghost use Rattle.std.specs.FinMap as map;
ghost use Rattle.byte_streams.specs.inside.Keeping.{empty_contents, is_taken_of, is_written_to, with_sent_piece, with_stream_sent, with_taken};
ghost use Rattle.byte_streams.specs.Lines.{stream_line, stream_lines, read_of};
ghost use Rattle.byte_streams.specs.Meanings.{piece_of};
ghost use Rattle.byte_streams.specs.Traffic.{continues_or_repeats};

use crate::chunk::Chunk;
use crate::line::StreamLine;
use crate::stream::Stream;
use std::alloc::{AllocError, Global};
use std::collections::BTreeMap;
use std::marker::Model;

// By the process that writes, by the one that reads, and by number.
type StreamKey = (u32, (u32, u16));

#[derive(Drop)]
pub(crate) struct StreamMap {
    alloc: Global,
    streams: BTreeMap<StreamKey, Stream>,
}

impl Model for StreamMap {
    ghost use Rattle.std.specs.FinMap as map;
    ghost use Rattle.byte_streams.specs.Keys.{ContentsByStream, streams_code};

    ghost Value = { ContentsByStream };

    ghost coded = { streams_code };

    ghost view = { λ m. map.from_entries m.streams.entries };
}

impl StreamMap {
    // No streams.
    pub(crate) fn new(alloc: Global) -> StreamMap
        ensures { result ≡ map.empty }
    {
        StreamMap {
            alloc,
            streams: BTreeMap::new(alloc),
        }
    }

    // A piece that is sent to a stream. Says whether it counts; the first that does begins the stream.
    pub(crate) fn write(
        &mut self,
        from: u32,
        to: u32,
        chunk: &Chunk<'_>,
    ) -> Result<bool, AllocError>
        ensures counts { IfOk result (λ counts. counts ≡ is_written_to (from, (to, chunk.now.stream)) (piece_of chunk.now) self.old) }
        ensures streams { IfOk result (λ counts. self.new ≡ (if counts then with_stream_sent (from, (to, chunk.now.stream)) (piece_of chunk.now) self.old else self.old)) }
    {
        let key = (from, (to, chunk.stream));
        if let Some(stream) = self.streams.get_mut(&key) {
            return stream.write(chunk);
        }
        self.begin(key, chunk)
    }

    // The first piece that is sent to a stream.
    fn begin(&mut self, key: StreamKey, chunk: &Chunk<'_>) -> Result<bool, AllocError>
        ensures counts { IfOk result (λ counts. counts ≡ continues_or_repeats (piece_of chunk.now) []) }
        ensures streams { IfOk result (λ counts. self.new ≡ (if counts then map.insert self.old key (with_sent_piece (piece_of chunk.now) empty_contents) else self.old)) }
    {
        let mut stream = Stream::new(self.alloc);
        if !stream.write(chunk)? {
            return Ok(false);
        }
        self.put(key, stream)?;
        Ok(true)
    }

    fn put(&mut self, key: StreamKey, stream: Stream) -> Result<(), AllocError>
        ensures { OnOk result (self.new ≡ map.insert self.old key stream) }
    {
        self.streams.insert(key, stream)?;
        Ok(())
    }

    // A piece that is taken of a stream covers its positions, where it is what is there. Says whether it is.
    pub(crate) fn cover(&mut self, from: u32, to: u32, chunk: &Chunk<'_>) -> bool
        ensures stands { result ≡ is_taken_of (from, (to, chunk.now.stream)) (piece_of chunk.now) self.old }
        ensures streams { self.new ≡ (if result then with_taken (from, (to, chunk.now.stream)) (piece_of chunk.now) self.old else self.old) }
    {
        let Some(stream) = self.streams.get_mut(&(from, (to, chunk.stream))) else {
            return false;
        };
        stream.cover(chunk)
    }

    // A line for each stream.
    pub(crate) fn lines(&self, alloc: Global) -> Result<Vec<StreamLine>, AllocError>
        ensures { IfOk result (λ lines. lines.items ≡ stream_lines self.now) }
    {
        self.streams.iter().map(line_of).collect(alloc)
    }

    // The bytes that were read of a stream.
    pub(crate) fn read_bytes(&self, from: u32, to: u32, number: u16) -> Option<&[u8]>
        ensures { option_map (λ bytes. bytes.now) result ≡ option_map read_of (map.get self.now (from, (to, number))) }
    {
        Some(self.streams.get(&(from, (to, number)))?.read_bytes())
    }
}

fn line_of(entry: (&StreamKey, &Stream)) -> StreamLine
    ensures { result ≡ stream_line (entry.entry.0.now, entry.entry.1.now) }
{
    let (key, stream) = entry;
    let (from, (to, number)) = *key;
    StreamLine {
        from,
        to,
        stream: number,
        written: stream.written_count() as u64,
        read: stream.read_count() as u64,
    }
}
