// What the processes of a group print, where it is kept.
ghost use Rattle.std.specs.Prelude.{◌≡◌, [], ◌<◌, IfOk, OnOk, length, replicate};
ghost use Rattle.std.specs.List.{slice_index_or};
ghost use Rattle.lib_calls.specs.Entry.{entry_of};
ghost use Rattle.lib_calls.specs.Traffic.{printed as printed_of};
ghost use Rattle.group_record.specs.inside.Recorded.{prints_kept_for, with_print};

use fri_bytes::Bytes;
use lib_calls::{EntryView, printed};
use std::alloc::{AllocError, Global};
use std::marker::Model;

/// What each process of a group has printed, where that is kept. Contracts see the bytes of each process of
/// which it is kept.
#[derive(Drop)]
pub(crate) struct Prints {
    processes: Vec<Bytes>,
}

impl Model for Prints {
    ghost use Rattle.std.specs.Prelude.{ℕ, List};

    ghost Value = { List (List ℕ) };

    ghost view = { λ prints. prints.processes.items };
}

impl Prints {
    /// Nothing is printed. It is kept of each of `count` processes where it is asked for, else of none.
    pub(crate) fn new(alloc: Global, asked: bool, count: u32) -> Result<Prints, AllocError>
        ensures { IfOk result (λ prints. prints ≡ replicate (prints_kept_for asked count) []) }
    {
        let kept = if asked { count } else { 0 };
        let mut processes = Vec::new(alloc);
        for _ in 0..kept {
            processes.push(Bytes::new(alloc))?;
        }
        Ok(Prints { processes })
    }

    /// Adds what an event of process `p` printed, where that is kept of it.
    pub(crate) fn add(&mut self, p: u32, entry: &EntryView<'_>) -> Result<(), AllocError>
        ensures { OnOk result (self.new ≡ with_print self.old p (printed_of (entry_of entry.now))) }
    {
        let piece = printed(entry);
        if piece.is_empty() {
            return Ok(());
        }
        let index = p as usize;
        if index < self.processes.len() {
            self.processes[index].push_all(piece)?;
        }
        Ok(())
    }

    /// What a process printed, where that is kept.
    pub(crate) fn of(&self, index: usize) -> &[u8]
        requires { index < length self.now }
        ensures { result.now ≡ slice_index_or self.now index [] }
    {
        self.processes[index].as_slice()
    }
}
