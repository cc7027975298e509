// A source and a sink in memory as one terminal, which keeps in which order they were used.
ghost use Rattle.std.specs.Prelude.{◌≡◌, ◌<◌, ◌≤◌, [], Some, length, IfOk};
ghost use Rattle.fri_outside.specs.inside.Kept.{HearsInMemory, SaysInMemory};

use crate::{Failed, MemSink, MemSource, Sink, Source, Terminal, WriteError};
use std::alloc::Global;
use std::marker::Model;

// When bytes were given: how many had been said and heard by then, and how many came.
#[derive(Clone, Copy)]
struct Mark {
    said: usize,
    heard: usize,
    count: usize,
}

/// A terminal in memory, for tests. It tells what is left, what was taken, and in which order.
#[derive(Drop)]
pub struct MemTerminal {
    input: MemSource,
    out: MemSink,
    marks: Vec<Mark>,
    faults: u64,
}

impl Model for MemTerminal {
    ghost use Rattle.std.specs.Prelude.{All, map};
    ghost use Rattle.fri_outside.specs.inside.Kept.{IsAskingMark, asking_at};
    ghost use Rattle.fri_outside.specs.Memory.{TerminalInMemory};

    ghost Value = { TerminalInMemory };

    ghost view = { λ terminal. record {
      input = terminal.input;
      out = terminal.out;
      asked = map (λ m. asking_at terminal.out.bytes terminal.input.given m.said m.heard m.count) terminal.marks.items;
      faults = terminal.faults;
    } };

    ghost invariant = { λ terminal. All (λ m. IsAskingMark terminal.out.bytes terminal.input.given m.said m.heard m.count) terminal.marks.items };
}

impl MemTerminal {
    /// A terminal that is read from this source and written to this sink. Each read and write that fails there fails.
    pub fn new(alloc: Global, input: MemSource, out: MemSink) -> Self
        ensures { result ≡ record { input = input; out = out; asked = []; faults = 0 } }
    {
        MemTerminal {
            input,
            out,
            marks: Vec::new(alloc),
            faults: 0,
        }
    }

    /// The bytes that were taken.
    pub fn bytes(&self) -> &[u8]
        ensures { result.now ≡ self.now.out.bytes }
    {
        self.out.bytes()
    }

    // Writes. What was noted stays.
    fn say(&mut self, piece: &[u8]) -> Result<usize, WriteError>
        requires { 0 < length piece.now }
        ensures said { SaysInMemory self.old self.new piece.now result }
    {
        self.out.write(piece)
    }

    // Reads, and notes what came and what had been said by then. The room for the note is made first.
    fn hear(&mut self, buf: &mut [u8]) -> Result<usize, Failed>
        requires { 0 < length buf.old }
        ensures heard { HearsInMemory self.old self.new result buf.new }
        ensures bound { IfOk result (λ n. n ≤ length buf.new) }
    {
        if self.marks.reserve(1).is_err() {
            return Err(Failed);
        }
        let said = self.out.bytes().len();
        let heard = self.input.count();
        let count = self.input.read(buf)?;
        self.marks.push_reserved(Mark { said, heard, count });
        Ok(count)
    }
}

impl Sink for MemTerminal {
    ghost taken = { λ terminal. Some terminal.out.bytes };

    ghost faults = { λ terminal. terminal.out.faults };

    ghost hearing = { λ terminal. record { left = Some terminal.input.rest; faults = terminal.faults; asked = Some terminal.asked } };

    fn write(&mut self, piece: &[u8]) -> Result<usize, WriteError> {
        self.say(piece)
    }
}

impl Terminal for MemTerminal {
    /// A read for whose note there is no memory fails too.
    fn read(&mut self, buf: &mut [u8]) -> Result<usize, Failed> {
        let outcome = self.hear(buf);
        if outcome.is_err() {
            self.faults = self.faults.saturating_add(1);
        }
        outcome
    }
}
