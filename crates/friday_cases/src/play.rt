// The objects of a case, and what the lines of a script do to them.

use crate::bytes::spelled;
use crate::order::{Change, Order, Side, read_order};
use crate::outcome::Outcome;
use anyhow::{Context, ensure};
use fri_outside::{MemFiles, MemSink, MemSource, MemTerminal};
use friday_app::{friday, friday_stopped, record_and_show};
use sha2::{Digest, Sha256};
use std::alloc::{AllocError, Global};
use std::fmt::Write;
use std::mem;

/// The most bytes of a file that are shown.
const MOST_SHOWN: usize = 512;

/// The bytes of a file that stand in one line.
const ROW: usize = 32;

/// What is said of a file that ends before a place.
const SHORTER: &str = "the file is shorter";

/// What was kept for all cases, and the files and the input of the one that was begun last.
#[derive(Drop)]
pub struct Session {
    alloc: Global,
    kept: MemFiles,
    files: MemFiles,
    input: Vec<u8>,
    piece: usize,
    failing_reads: Vec<u64>,
    failing_writes: Vec<u64>,
}

impl Session {
    pub fn new(alloc: Global) -> Session {
        Session {
            alloc,
            kept: MemFiles::new(alloc),
            files: MemFiles::new(alloc),
            input: Vec::new(alloc),
            piece: 1,
            failing_reads: Vec::new(alloc),
            failing_writes: Vec::new(alloc),
        }
    }

    /// Does what the line asks for, and gives what is to be printed of it.
    pub fn perform(&mut self, line: &str) -> anyhow::Result<String> {
        if line.trim().is_empty() || line.starts_with('#') {
            return Ok(String::new(self.alloc));
        }
        match read_order(line)? {
            Order::Keep { name, pieces } => self.keep(name, pieces),
            Order::Case(name) => self.begin(name),
            Order::File { name, pieces } => self.file(name, pieces),
            Order::Add { name, pieces } => self.add(name, pieces),
            Order::Cut { name, len } => self.cut(name, len),
            Order::Set { name, at, pieces } => self.set(name, at, pieces),
            Order::Input { piece, pieces } => self.hand_in(piece, pieces),
            Order::Fail { side, call } => self.fail(side, call),
            Order::Run(words) => self.run(words),
            Order::Both { first, second } => self.both(first, second),
            Order::Stop { calls, words } => self.stop(calls, words),
            Order::Sum(words) => self.sum(words),
            Order::Each {
                change,
                name,
                first,
                last,
                words,
            } => self.run_each(change, name, first, last, words),
            Order::Show(name) => self.show(name),
        }
    }

    fn keep(&mut self, name: &str, pieces: &str) -> anyhow::Result<String> {
        let bytes = spelled(self.alloc, pieces, &self.kept)?;
        self.kept.put(name, &bytes)?;
        Ok(String::new(self.alloc))
    }

    fn begin(&mut self, name: &str) -> anyhow::Result<String> {
        self.files = MemFiles::new(self.alloc);
        self.input.clear();
        self.failing_reads.clear();
        self.failing_writes.clear();
        Ok(format!(in self.alloc; "\ncase {name}\n")?)
    }

    // Sets the bytes of a file, and tells what was done to it.
    fn put(&mut self, done: &str, name: &str, bytes: &[u8]) -> anyhow::Result<String> {
        self.files.put(name, bytes)?;
        let len = bytes.len();
        Ok(format!(in self.alloc; "{done} {name}: {len} bytes\n")?)
    }

    fn file(&mut self, name: &str, pieces: &str) -> anyhow::Result<String> {
        let bytes = spelled(self.alloc, pieces, &self.kept)?;
        self.put("file", name, &bytes)
    }

    // A copy of a file, which must be there.
    fn copy(&self, name: &str) -> anyhow::Result<Vec<u8>> {
        let bytes = self
            .files
            .bytes(name)
            .context(format_args!("there is no file {name}"))?;
        Ok(Vec::from_slice(self.alloc, bytes)?)
    }

    fn add(&mut self, name: &str, pieces: &str) -> anyhow::Result<String> {
        let mut bytes = self.copy(name)?;
        let more = spelled(self.alloc, pieces, &self.kept)?;
        bytes.extend_from_slice(&more)?;
        self.put("add", name, &bytes)
    }

    fn cut(&mut self, name: &str, len: usize) -> anyhow::Result<String> {
        let bytes = self.copy(name)?;
        let front = bytes.get(..len).context(SHORTER)?;
        self.put("cut", name, front)
    }

    fn set(&mut self, name: &str, at: usize, pieces: &str) -> anyhow::Result<String> {
        let mut bytes = self.copy(name)?;
        let others = spelled(self.alloc, pieces, &self.kept)?;
        let end = at.checked_add(others.len()).context(SHORTER)?;
        ensure!(end <= bytes.len(), SHORTER);
        bytes[at..end].copy_from_slice(&others);
        self.put("set", name, &bytes)
    }

    fn hand_in(&mut self, piece: usize, pieces: &str) -> anyhow::Result<String> {
        ensure!(piece > 0, "a read gives a byte at least");
        self.input = spelled(self.alloc, pieces, &self.kept)?;
        self.piece = piece;
        let len = self.input.len();
        Ok(format!(in self.alloc; "input: {len} bytes, {piece} at most in a read\n")?)
    }

    fn fail(&mut self, side: Side, call: u64) -> anyhow::Result<String> {
        let name = match side {
            Side::Files => {
                self.files.fail_at(call)?;
                "files"
            }
            Side::Input => {
                self.failing_reads.push(call)?;
                "input"
            }
            Side::Output => {
                self.failing_writes.push(call)?;
                "output"
            }
        };
        Ok(format!(in self.alloc; "fail {name} {call}\n")?)
    }

    fn run(&mut self, words: &str) -> anyhow::Result<String> {
        let told = self.call(words)?.tell(self.alloc)?;
        Ok(format!(in self.alloc; "run {words}: {told}")?)
    }

    fn both(&mut self, first: &str, second: &str) -> anyhow::Result<String> {
        let (is_shown, outcome) = self.call_both(first, second)?;
        let told = outcome.tell(self.alloc)?;
        let by = if is_shown { "" } else { "first " };
        Ok(format!(in self.alloc; "both {first} ; {second}: {by}{told}")?)
    }

    // Makes the call, of whose calls on the files only so many come through.
    fn stop(&mut self, calls: usize, words: &str) -> anyhow::Result<String> {
        let outcome = self.call_stopped(calls, words)?;
        let told = outcome.tell(self.alloc)?;
        Ok(format!(in self.alloc; "stop {calls} {words}: {told}")?)
    }

    // Makes the call, and tells the length and the SHA-256 of what it prints.
    fn sum(&mut self, words: &str) -> anyhow::Result<String> {
        let outcome = self.call(words)?;
        let status = outcome.status;
        let len = outcome.printed.len();
        let digits = digest_of(self.alloc, &outcome.printed)?;
        Ok(format!(in self.alloc; "sum {words}: {status:?}\n    {len} bytes, SHA-256 {digits}\n")?)
    }

    // The input from its beginning, whose chosen reads fail, once.
    fn source(&mut self) -> Result<MemSource, AllocError> {
        let bytes = Vec::from_slice(self.alloc, &self.input)?;
        let mut input = MemSource::new(bytes, self.piece.max(1));
        for read in &self.failing_reads {
            input.fail_at(*read)?;
        }
        self.failing_reads.clear();
        Ok(input)
    }

    // A fresh output, whose chosen writes fail, once.
    fn sink(&mut self) -> Result<MemSink, AllocError> {
        let mut output = MemSink::new(self.alloc);
        for write in &self.failing_writes {
            output.fail_at(*write)?;
        }
        self.failing_writes.clear();
        Ok(output)
    }

    fn terminal(&mut self) -> Result<MemTerminal, AllocError> {
        let input = self.source()?;
        Ok(MemTerminal::new(self.alloc, input, self.sink()?))
    }

    fn call(&mut self, words: &str) -> Result<Outcome, AllocError> {
        let words = split_words(self.alloc, words)?;
        let mut terminal = self.terminal()?;
        let status = friday(self.alloc, &words, &mut self.files, &mut terminal);
        let printed = Vec::from_slice(self.alloc, terminal.bytes())?;
        Ok(Outcome { status, printed })
    }

    // Makes both calls over one terminal. Gives whether the second was made, and what they came to.
    fn call_both(&mut self, first: &str, second: &str) -> Result<(bool, Outcome), AllocError> {
        let first = split_words(self.alloc, first)?;
        let second = split_words(self.alloc, second)?;
        let mut terminal = self.terminal()?;
        let ended = record_and_show(self.alloc, &first, &second, &mut self.files, &mut terminal);
        let printed = Vec::from_slice(self.alloc, terminal.bytes())?;
        let status = match ended {
            Ok(status) | Err(status) => status,
        };
        Ok((ended.is_ok(), Outcome { status, printed }))
    }

    fn call_stopped(&mut self, calls: usize, words: &str) -> Result<Outcome, AllocError> {
        let words = split_words(self.alloc, words)?;
        let mut terminal = self.terminal()?;
        let files = mem::replace(&mut self.files, MemFiles::new(self.alloc));
        let (files, status) = friday_stopped(
            self.alloc,
            &words,
            calls as u64,
            files,
            &mut terminal,
        );
        self.files = files;
        let printed = Vec::from_slice(self.alloc, terminal.bytes())?;
        Ok(Outcome { status, printed })
    }

    // Makes the call with these bytes as those of a file, and tells its outcome in a line.
    fn call_with(&mut self, name: &str, bytes: &[u8], words: &str) -> Result<String, AllocError> {
        self.files.put(name, bytes)?;
        self.call(words)?.tell_in_line(self.alloc)
    }

    // Makes the call for each changed form of a file, which is as it was after that.
    fn run_each(
        &mut self,
        change: Change,
        name: &str,
        first: usize,
        last: usize,
        words: &str,
    ) -> anyhow::Result<String> {
        let whole = self.copy(name)?;
        let mut told = format!(in self.alloc; "run {words}, for each\n")?;
        for at in first..=last {
            let changed = changed(self.alloc, change, &whole, at)?;
            let outcome = self.call_with(name, &changed, words)?;
            write!(told, "    {at}: {outcome}")?;
        }
        self.files.put(name, &whole)?;
        Ok(told)
    }

    fn show(&self, name: &str) -> anyhow::Result<String> {
        let Some(bytes) = self.files.bytes(name) else {
            return Ok(format!(in self.alloc; "show {name}: absent\n")?);
        };
        let mut told = format!(in self.alloc; "show {name}: {} bytes\n", bytes.len())?;
        if bytes.len() > MOST_SHOWN {
            push_digest(&mut told, bytes)?;
        } else {
            push_rows(&mut told, bytes)?;
        }
        Ok(told)
    }
}

// Adds the line of a long file.
fn push_digest(told: &mut String, bytes: &[u8]) -> Result<(), AllocError> {
    let digits = digest_of(*told.allocator(), bytes)?;
    write!(told, "    SHA-256 {digits}\n")?;
    Ok(())
}

// Adds the lines of a short file.
fn push_rows(told: &mut String, bytes: &[u8]) -> Result<(), AllocError> {
    for row in bytes.chunks(ROW) {
        let digits = hex::encode(*told.allocator(), row)?;
        write!(told, "    {digits}\n")?;
    }
    Ok(())
}

// The digits of the SHA-256.
fn digest_of(alloc: Global, bytes: &[u8]) -> Result<String, AllocError> {
    let digest = Sha256::digest(bytes);
    hex::encode(alloc, digest.as_slice())
}

fn split_words(alloc: Global, words: &str) -> Result<Vec<String>, AllocError> {
    let mut list = Vec::new(alloc);
    for word in words.split_whitespace() {
        let word = if word == "''" { "" } else { word };
        list.push(String::from_str(alloc, word)?)?;
    }
    Ok(list)
}

fn changed(alloc: Global, change: Change, whole: &[u8], at: usize) -> anyhow::Result<Vec<u8>> {
    match change {
        Change::Cut => {
            let front = whole.get(..at).context(SHORTER)?;
            Ok(Vec::from_slice(alloc, front)?)
        }
        Change::Turn(bits) => {
            let mut bytes = Vec::from_slice(alloc, whole)?;
            let byte = bytes.get_mut(at).context(SHORTER)?;
            *byte ^= bits;
            Ok(bytes)
        }
    }
}
