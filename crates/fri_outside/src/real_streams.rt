// A source over a reader and a sink over a writer. They count what failed. They tell no contents to whoever has a source or
// a sink; over a reader or a writer whose bytes are known, no byte is dropped and none goes twice.
ghost use Rattle.std.specs.Prelude.{◌≡◌, ◌<◌, ◌≤◌, None, length, IfOk};
ghost use Rattle.std.specs.Io.KnownBytes.{ReadConsumes, WriteAppends};
ghost use Rattle.fri_outside.specs.Terminal.{deaf_hearing};
ghost use Rattle.fri_outside.specs.Outside.{after_source_read, after_sink_write};

use crate::{Failed, Sink, Source, WriteError};
use std::io::{ErrorKind, Read, Write};

// Reads, and again where the call was interrupted before it read anything.
fn read_through<R: Read>(reader: &mut R, buf: &mut [u8]) -> Result<usize, Failed>
    ensures bound { IfOk result (λ n. n ≤ length buf.new) }
    ensures bytes { ReadConsumes (R.remaining reader.old) (R.remaining reader.new) result buf.new }
{
    'turns: for _ in 0..u64::MAX {
        match reader.read(buf) {
            Ok(count) => return Ok(count),
            Err(error) if error.kind() == ErrorKind::Interrupted => {}
            Err(_) => return Err(Failed),
        }
    }
    Err(Failed)
}

// Writes, and again where the call was interrupted before it wrote anything.
fn write_through<W: Write>(writer: &mut W, piece: &[u8]) -> Result<usize, WriteError>
    ensures bound { IfOk result (λ n. n ≤ length piece.now) }
    ensures some { IfOk result (λ n. 0 < n) }
    ensures bytes { WriteAppends (W.contents writer.old) (W.contents writer.new) result piece.now }
{
    'turns: for _ in 0..u64::MAX {
        match writer.write(piece) {
            Ok(count) if count > 0 => return Ok(count),
            Ok(_) => return Err(WriteError::Failed),
            Err(error) => match error.kind() {
                ErrorKind::Interrupted => {}
                ErrorKind::OutOfMemory => return Err(WriteError::NoMemory),
                _ => return Err(WriteError::Failed),
            },
        }
    }
    Err(WriteError::Failed)
}

/// A source over any reader. Each error of the reader is a fault, but for one that says that the call was
/// interrupted, which is made again.
#[derive(Drop)]
pub struct ReaderSource<R: Read + Drop> {
    reader: R,
    faults: u64,
}

impl<R: Read + Drop> ReaderSource<R> {
    pub fn new(reader: R) -> Self
        ensures source { result.reader ≡ reader }
        ensures faults { result.faults ≡ 0 }
    {
        ReaderSource { reader, faults: 0 }
    }
}

impl<R: Read + Drop> Source for ReaderSource<R> {
    ghost left = { λ _. None };

    ghost faults = { λ source. source.faults };

    fn read(&mut self, buf: &mut [u8]) -> Result<usize, Failed>
        requires { 0 < length buf.old }
        ensures bound { IfOk result (λ n. n ≤ length buf.new) }
        ensures bytes { ReadConsumes (R.remaining self.old.reader) (R.remaining self.new.reader) result buf.new }
        ensures counted { self.new.faults ≡ after_source_read self.old.faults result }
    {
        let outcome = read_through(&mut self.reader, buf);
        if outcome.is_err() {
            self.faults = self.faults.saturating_add(1);
        }
        outcome
    }
}

/// A sink over any writer. Each error of the writer is a fault, but for want of memory and for one that says that the
/// call was interrupted, which is made again. A write of 0 bytes is a fault too.
#[derive(Drop)]
pub struct WriterSink<W: Write + Drop> {
    writer: W,
    faults: u64,
}

impl<W: Write + Drop> WriterSink<W> {
    pub fn new(writer: W) -> Self
        ensures sink { result.writer ≡ writer }
        ensures faults { result.faults ≡ 0 }
    {
        WriterSink { writer, faults: 0 }
    }
}

impl<W: Write + Drop> Sink for WriterSink<W> {
    ghost taken = { λ _. None };

    ghost faults = { λ sink. sink.faults };

    ghost hearing = { λ _. deaf_hearing };

    fn write(&mut self, piece: &[u8]) -> Result<usize, WriteError>
        requires { 0 < length piece.now }
        ensures bound { IfOk result (λ n. n ≤ length piece.now) }
        ensures some { IfOk result (λ n. 0 < n) }
        ensures bytes { WriteAppends (W.contents self.old.writer) (W.contents self.new.writer) result piece.now }
        ensures counted { self.new.faults ≡ after_sink_write self.old.faults result }
    {
        let outcome = write_through(&mut self.writer, piece);
        if outcome == Err(WriteError::Failed) {
            self.faults = self.faults.saturating_add(1);
        }
        outcome
    }
}
