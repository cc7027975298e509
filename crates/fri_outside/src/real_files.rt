// The files of the runtime. They count what failed and what was missed, and tell no contents.
ghost use Rattle.std.specs.Prelude.{◌≡◌, ◌≤◌, ◌+◌, None, Some, take, vec_len, IfOk, OnOk, MatchResult};
ghost use Rattle.std.specs.Io.KnownBytes.{Appends};
ghost use Rattle.fri_outside.specs.Outside.{FoundFile, Held, ErrorMatchesFile, WhenTold, after_read, after_write, found_within};
ghost use Rattle.fri_outside.specs.inside.Reading.{MovesFrontOfBytes};

use crate::fault_counts::FaultCounts;
use crate::open_files::{OpenFiles, close};
use crate::replacing::{place_of, replace};
use crate::{FileError, Files, WriteError};
use std::alloc::Global;
use std::fs::{OpenFile, OpenOptions};
use std::io::{ErrorKind, Read, Write};
use std::marker::Model;
use std::{fs, io, rt};

/// The files of the runtime, by their paths. A file is read up to one byte past the limit. Only a name
/// that is not found is absent: a folder, a path through a file and a file that may not be read are
/// faults.
///
/// A file that was created stays open until it is created again or all are closed. So a piece at its end
/// costs one write, and a reader at the other end of a pipe gets all pieces as one stream. A file that takes the place of
/// another is made beside it, and moved there once it is whole.
///
/// Such files cannot be let go, so whoever has them has to close them.
pub struct RealFiles<'a, R: rt::Files> {
    alloc: Global,
    rt: &'a R,
    open: OpenFiles<R::File>,
    faults: FaultCounts,
}

impl<'a, R: rt::Files> Model for RealFiles<'a, R> {
    ghost use Rattle.fri_outside.specs.Outside.{Counts};

    ghost Value = { Counts };

    ghost view = { λ files. files.faults };
}

impl<'a, R: rt::Files> RealFiles<'a, R> {
    pub fn new(alloc: Global, rt: &'a R) -> Self
        ensures { result ≡ record { reads = 0; writes = 0; misses = 0; asked = None } }
    {
        RealFiles {
            alloc,
            rt,
            open: OpenFiles::new(alloc),
            faults: FaultCounts::new(),
        }
    }

    /// Closes all files that are open, also behind one that cannot be closed.
    pub fn close(self) -> Closed {
        let RealFiles {
            alloc: _,
            rt: _,
            mut open,
            faults: _,
        } = self;
        Closed {
            is_lost: open.close_all().is_err(),
        }
    }

    // Makes a file without bytes and keeps it open. The memory is asked for first, so that there is none
    // to want once the file has lost its bytes.
    fn create_file(&mut self, name: &str) -> Result<(), WriteError>
        ensures same { self.new ≡ self.old }
    {
        let key = String::from_str(self.alloc, name)?;
        self.open.reserve()?;
        self.open.close(name)?;
        let file = fs::create(self.rt, name).map_err(|error| open_error(&error))?;
        self.open.keep(key, file)
    }

    // Writes to a file that is open, or opens another and closes it.
    fn write(&mut self, name: &str, piece: &[u8]) -> Result<(), WriteError>
        ensures same { self.new ≡ self.old }
    {
        match self.open.get_mut(name) {
            Some(file) => write_piece(file, piece),
            None => append_to_file(self.rt, name, piece),
        }
    }

    // Puts a file in the place of one of that name. What is no regular file is written to as it is.
    fn replace_file(&mut self, name: &str, bytes: &[u8]) -> Result<(), WriteError>
        ensures same { self.new ≡ self.old }
    {
        match place_of(self.rt, self.alloc, name)? {
            Some(place) => {
                self.open.close(name)?;
                replace(self.rt, self.alloc, place, bytes)
            }
            None => {
                self.create_file(name)?;
                self.write(name, bytes)
            }
        }
    }
}

/// How the files of a call were closed. Only closing files makes one, and it cannot be let go: it has to be asked.
pub struct Closed {
    is_lost: bool,
}

impl Model for Closed {
    ghost use Rattle.std.specs.Prelude.{Bool};

    ghost Value = { Bool };

    ghost view = { λ closed. closed.is_lost };
}

impl Closed {
    /// Whether some file could not be closed. It may lack bytes that were written to it, which is a write fault.
    pub fn is_lost(self) -> bool
        ensures { result ≡ self }
    {
        let Closed { is_lost } = self;
        is_lost
    }
}

// Why a file was not opened to be read.
fn open_read_error(error: &io::Error) -> FileError {
    match error.kind() {
        ErrorKind::NotFound => FileError::Absent,
        ErrorKind::OutOfMemory => FileError::NoMemory,
        _ => FileError::Failed,
    }
}

// Why bytes of an open file were not read, whatever the file has. It was found, so it is not absent.
fn bytes_error(error: &io::Error) -> FileError
    ensures { (here : FoundFile) → ErrorMatchesFile here result }
{
    match error.kind() {
        ErrorKind::OutOfMemory => FileError::NoMemory,
        _ => FileError::Failed,
    }
}

// The error of a call that changed no file.
pub(crate) fn open_error(error: &io::Error) -> WriteError {
    match error.kind() {
        ErrorKind::OutOfMemory => WriteError::NoMemory,
        _ => WriteError::Failed,
    }
}

// How many bytes are copied at once.
const FILE_PIECE: usize = 65_536;

// Adds whole pieces after the bytes, of so many bytes in all that are expected. `read_to_end` would first fill what it
// reads into with zeros, byte by byte, which takes longer than to read.
fn append_pieces<F: Read>(file: &mut F, expected: u64, bytes: &mut Vec<u8>) -> io::Result<()>
    ensures { OnOk result (MovesFrontOfBytes (F.remaining file.old) (F.remaining file.new) bytes.old.items bytes.new.items) }
{
    let mut piece = [0; FILE_PIECE];
    for _ in 0..expected / FILE_PIECE as u64 {
        file.read_exact(&mut piece)?;
        bytes.extend_from_slice(&piece)?;
    }
    Ok(())
}

// The bytes of a file, where so many are expected, and one more than the limit of a file that is longer.
fn read_up_to<F: Read + Drop>(
    alloc: Global,
    file: F,
    expected: u64,
    limit: usize,
) -> io::Result<Vec<u8>>
    ensures { IfOk result (λ bytes. WhenTold (F.remaining file) (λ all. bytes.items ≡ take (limit + 1) all)) }
{
    let end = (limit as u64).saturating_add(1);
    // With room for one byte more than the file has, the last read finds the end without growing.
    let expected = expected.min(end);
    let mut bytes = Vec::with_capacity(alloc, expected.saturating_add(1) as usize)?;
    let mut file = file.take(end);
    append_pieces(&mut file, expected, &mut bytes)?;
    file.read_to_end(&mut bytes)?;
    Ok(bytes)
}

// All bytes of a file that has at most `limit`.
fn read_within<F: Read + Drop>(
    alloc: Global,
    file: F,
    expected: u64,
    limit: usize,
) -> Result<Vec<u8>, FileError>
    ensures within { IfOk result (λ bytes. vec_len bytes ≤ limit) }
    ensures answer { WhenTold (F.remaining file) (λ all. MatchResult result
        (λ bytes. found_within limit (Some all) ≡ Held bytes.items)
        (ErrorMatchesFile (found_within limit (Some all)))) }
{
    match read_up_to(alloc, file, expected, limit) {
        Ok(bytes) if bytes.len() > limit => Err(FileError::TooLarge),
        Ok(bytes) => Ok(bytes),
        Err(error) => Err(bytes_error(&error)),
    }
}

fn read_file<R: rt::Files>(
    rt: &R,
    alloc: Global,
    name: &str,
    limit: usize,
) -> Result<Vec<u8>, FileError>
    ensures within { IfOk result (λ bytes. vec_len bytes ≤ limit) }
{
    let file = fs::open(rt, name).map_err(|error| open_read_error(&error))?;
    let expected = file.metadata().map_or(0, |metadata| metadata.len());
    read_within(alloc, file, expected, limit)
}

// A write that fails may have written a part, so it is a fault whatever its error says.
pub(crate) fn write_piece<W: Write>(file: &mut W, piece: &[u8]) -> Result<(), WriteError>
    ensures { OnOk result (Appends (W.contents file.old) (W.contents file.new) piece.now) }
{
    file.write_all(piece).map_err(|_| WriteError::Failed)
}

fn append_to_file<R: rt::Files>(rt: &R, name: &str, piece: &[u8]) -> Result<(), WriteError> {
    let mut file = OpenOptions::new()
        .append(true)
        .create(true)
        .open(rt, name)
        .map_err(|error| open_error(&error))?;
    write_piece(&mut file, piece)?;
    close(file)
}

impl<'a, R: rt::Files> Files for RealFiles<'a, R> {
    ghost told = { λ _. None };

    ghost counts = { λ files. files };

    fn read(&mut self, alloc: Global, name: &str, limit: usize) -> Result<Vec<u8>, FileError>
        ensures within { IfOk result (λ bytes. vec_len bytes ≤ limit) }
        ensures counted { self.new ≡ after_read name.now self.old result }
    {
        let outcome = read_file(self.rt, alloc, name, limit);
        self.faults.count_read(&outcome);
        outcome
    }

    fn create(&mut self, name: &str) -> Result<(), WriteError>
        ensures counted { self.new ≡ after_write self.old result }
    {
        let outcome = self.create_file(name);
        self.faults.count_write(outcome);
        outcome
    }

    fn replace(&mut self, name: &str, bytes: &[u8]) -> Result<(), WriteError>
        ensures counted { self.new ≡ after_write self.old result }
    {
        let outcome = self.replace_file(name, bytes);
        self.faults.count_write(outcome);
        outcome
    }

    fn append(&mut self, name: &str, piece: &[u8]) -> Result<(), WriteError>
        ensures counted { self.new ≡ after_write self.old result }
    {
        let outcome = self.write(name, piece);
        self.faults.count_write(outcome);
        outcome
    }
}
