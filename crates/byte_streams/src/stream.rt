// What is kept of one stream.
ghost use Rattle.std.specs.Prelude.{◌≡◌, ◌≤◌, length, IfOk, OnOk, if◌then◌else◌};
ghost use Rattle.byte_streams.specs.inside.Keeping.{empty_contents, with_cover, with_sent_piece, with_written};
ghost use Rattle.byte_streams.specs.Lines.{covered_front, read_of};
ghost use Rattle.byte_streams.specs.Meanings.{piece_of};
ghost use Rattle.byte_streams.specs.Traffic.{continues_or_repeats, piece_stands_in};

use crate::chunk::Chunk;
use std::alloc::{AllocError, Global};
use std::marker::Model;

// The bytes that were written, and of each whether a receive covers it.
#[derive(Drop)]
pub(crate) struct Stream {
    written: Vec<u8>,
    covered: Vec<bool>,
}

impl Model for Stream {
    ghost use Rattle.std.specs.Prelude.{◌≡◌, length};
    ghost use Rattle.byte_streams.specs.Keys.{StreamContents, contents_code};

    ghost Value = { StreamContents };

    ghost coded = { contents_code };

    ghost view = { λ s. record { written = s.written.items; covered = s.covered.items } };

    ghost invariant = { λ s. length s.covered.items ≡ length s.written.items };
}

impl Stream {
    // Nothing was written.
    pub(crate) fn new(alloc: Global) -> Stream
        ensures { result ≡ empty_contents }
    {
        Stream {
            written: Vec::new(alloc),
            covered: Vec::new(alloc),
        }
    }

    // A piece that is sent: one that begins at the end adds its bytes. Says whether it counts.
    pub(crate) fn write(&mut self, chunk: &Chunk<'_>) -> Result<bool, AllocError>
        ensures counts { IfOk result (λ counts. counts ≡ continues_or_repeats (piece_of chunk.now) self.old.written) }
        ensures contents { OnOk result (self.new ≡ with_sent_piece (piece_of chunk.now) self.old) }
    {
        if chunk.offset == self.written.len() as u64 {
            self.push(chunk.bytes)?;
            return Ok(true);
        }
        Ok(self.has(chunk))
    }

    fn push(&mut self, bytes: &[u8]) -> Result<(), AllocError>
        ensures { OnOk result (self.new ≡ with_written bytes.now self.old) }
    {
        let before = self.written.len();
        self.written.extend_from_slice(bytes)?;
        let covered = self.covered.resize(self.written.len(), false);
        if covered.is_err() {
            self.written.truncate(before);
        }
        covered
    }

    // Whether the piece lies within what was written and is what is there.
    fn has(&self, chunk: &Chunk<'_>) -> bool
        ensures { result ≡ piece_stands_in (piece_of chunk.now) self.now.written }
    {
        let written = self.written.as_slice();
        chunk.offset <= written.len() as u64
            && written[chunk.offset as usize..].starts_with(chunk.bytes)
    }

    // A piece that is taken covers its positions, where it is what is there. Says whether it is.
    pub(crate) fn cover(&mut self, chunk: &Chunk<'_>) -> bool
        ensures stands { result ≡ piece_stands_in (piece_of chunk.now) self.old.written }
        ensures contents { self.new ≡ (if result then with_cover (piece_of chunk.now) self.old else self.old) }
    {
        if !self.has(chunk) {
            return false;
        }
        let start = chunk.offset as usize;
        self.covered[start..start + chunk.bytes.len()].fill(true);
        true
    }

    pub(crate) fn written_count(&self) -> usize
        ensures { result ≡ length self.now.written }
    {
        self.written.len()
    }

    // How many positions at the front are covered.
    pub(crate) fn read_count(&self) -> usize
        ensures count { result ≡ covered_front self.now }
        ensures within { result ≤ length self.now.written }
    {
        self.covered.iter().take_while(|is| **is).count()
    }

    // The bytes at these positions.
    pub(crate) fn read_bytes(&self) -> &[u8]
        ensures { result.now ≡ read_of self.now }
    {
        &self.written[..self.read_count()]
    }
}
