// The counts of what failed and what was missed.
ghost use Rattle.std.specs.Prelude.{◌≡◌, ℕ, List, None};
ghost use Rattle.fri_outside.specs.Outside.{after_read, after_write};

use crate::{FileError, WriteError};
use std::marker::Model;

/// How often reads and writes failed, and how often a file was missed. They do not tell which names were asked for.
#[derive(Drop)]
pub(crate) struct FaultCounts {
    reads: u64,
    writes: u64,
    misses: u64,
}

impl Model for FaultCounts {
    ghost use Rattle.std.specs.Prelude.{None};
    ghost use Rattle.fri_outside.specs.Outside.{Counts};

    ghost Value = { Counts };

    ghost view = { λ counts. record {
      reads = counts.reads;
      writes = counts.writes;
      misses = counts.misses;
      asked = None;
    } };
}

impl FaultCounts {
    pub(crate) fn new() -> Self
        ensures { result ≡ record { reads = 0; writes = 0; misses = 0; asked = None } }
    {
        FaultCounts {
            reads: 0,
            writes: 0,
            misses: 0,
        }
    }

    /// Counts what a read came to.
    pub(crate) fn count_read(&mut self, outcome: &Result<Vec<u8>, FileError>)
        ensures { (name : List ℕ) → self.new ≡ after_read name self.old outcome.now }
    {
        match outcome {
            Err(FileError::Absent | FileError::TooLarge) => {
                self.misses = self.misses.saturating_add(1);
            }
            Err(FileError::Failed) => {
                self.reads = self.reads.saturating_add(1);
            }
            Ok(_) | Err(FileError::NoMemory) => {}
        }
    }

    /// Counts what a write came to.
    pub(crate) fn count_write(&mut self, outcome: Result<(), WriteError>)
        ensures { self.new ≡ after_write self.old outcome }
    {
        if outcome == Err(WriteError::Failed) {
            self.writes = self.writes.saturating_add(1);
        }
    }
}
