// Files on which only the first calls are made.
ghost use Rattle.std.specs.Prelude.{◌≡◌, ◌<◌, ◌-◌, ◌↔◌, IsTrue};

use crate::fault_counts::FaultCounts;
use crate::{FileError, Files, WriteError};
use std::alloc::Global;

/// Files on which only so many calls are made. Each call after these fails and changes nothing, so that the files stay as
/// a program leaves them that is killed then, between two calls. They tell what those files tell.
#[derive(Drop)]
pub struct StoppedFiles<F: Files + Drop> {
    files: F,
    calls: u64,
    faults: FaultCounts,
}

impl<F: Files + Drop> StoppedFiles<F> {
    /// The first so many calls are made on these files.
    pub fn new(files: F, calls: u64) -> Self
        ensures files { result.files ≡ files }
        ensures calls { result.calls ≡ calls }
    {
        StoppedFiles {
            files,
            calls,
            faults: FaultCounts::new(),
        }
    }

    /// The files, as they were left.
    pub fn into_files(self) -> F
        ensures { result ≡ self.files }
    {
        let StoppedFiles {
            files,
            calls: _,
            faults: _,
        } = self;
        files
    }

    // Whether one more call is made.
    fn count_call(&mut self) -> bool
        ensures goes_on { IsTrue result ↔ 0 < self.old.calls }
        ensures counted { self.new.calls ≡ self.old.calls - 1 }
        ensures files { self.new.files ≡ self.old.files }
        ensures faults { self.new.faults ≡ self.old.faults }
    {
        let goes_on = self.calls > 0;
        self.calls = self.calls.saturating_sub(1);
        goes_on
    }
}

impl<F: Files + Drop> Files for StoppedFiles<F> {
    ghost told = { λ stopped. F.told stopped.files };

    ghost counts = { λ stopped. stopped.faults };

    fn read(&mut self, alloc: Global, name: &str, limit: usize) -> Result<Vec<u8>, FileError> {
        let outcome = if self.count_call() {
            self.files.read(alloc, name, limit)
        } else {
            Err(FileError::Failed)
        };
        self.faults.count_read(&outcome);
        outcome
    }

    fn create(&mut self, name: &str) -> Result<(), WriteError> {
        let outcome = if self.count_call() {
            self.files.create(name)
        } else {
            Err(WriteError::Failed)
        };
        self.faults.count_write(outcome);
        outcome
    }

    fn replace(&mut self, name: &str, bytes: &[u8]) -> Result<(), WriteError> {
        let outcome = if self.count_call() {
            self.files.replace(name, bytes)
        } else {
            Err(WriteError::Failed)
        };
        self.faults.count_write(outcome);
        outcome
    }

    fn append(&mut self, name: &str, piece: &[u8]) -> Result<(), WriteError> {
        let outcome = if self.count_call() {
            self.files.append(name, piece)
        } else {
            Err(WriteError::Failed)
        };
        self.faults.count_write(outcome);
        outcome
    }
}
