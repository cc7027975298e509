// Files in memory, whose chosen calls fail.
ghost use Rattle.std.specs.Prelude.{◌≡◌, ◌↔◌, ◌⊎◌, [], Some, OnOk, OnErr, IsErrOf, IsTrue, MatchResult};
ghost use Rattle.std.specs.Option.{option_copied};
ghost use Rattle.std.specs.FinMap.{empty, get, insert};
ghost use Rattle.fri_outside.specs.Outside.{Held, found_file, ErrorMatchesFile, after_read, after_write};
ghost use Rattle.fri_outside.specs.Memory.{no_failures, IsDueFailure, after_call, with_failure, appended_to_file, first_half, SameFaultCounts};

use crate::plan::FailurePlan;
use crate::shelf::Shelf;
use crate::{FileError, Files, WriteError};
use std::alloc::{AllocError, Global};
use std::marker::Model;

/// Files in memory, for tests. They tell what they hold.
#[derive(Drop)]
pub struct MemFiles {
    alloc: Global,
    shelf: Shelf,
    plan: FailurePlan,
    read_faults: u64,
    write_faults: u64,
    misses: u64,
    asked: Vec<String>,
}

impl Model for MemFiles {
    ghost use Rattle.std.specs.Prelude.{Some, map, string_bytes};
    ghost use Rattle.fri_outside.specs.Memory.{FilesInMemory, files_code};

    ghost Value = { FilesInMemory };

    ghost coded = { files_code };

    ghost view = { λ files. record {
      folder = files.shelf;
      plan = files.plan;
      counts = record {
        reads = files.read_faults;
        writes = files.write_faults;
        misses = files.misses;
        asked = Some (map string_bytes files.asked.items);
      };
    } };
}

impl MemFiles {
    /// No files, and no call fails.
    pub fn new(alloc: Global) -> Self
        ensures { result ≡ record {
          folder = empty;
          plan = no_failures;
          counts = record { reads = 0; writes = 0; misses = 0; asked = Some [] };
        } }
    {
        MemFiles {
            alloc,
            shelf: Shelf::new(alloc),
            plan: FailurePlan::new(alloc),
            read_faults: 0,
            write_faults: 0,
            misses: 0,
            asked: Vec::new(alloc),
        }
    }

    /// Sets the bytes of a name. It counts as no call.
    pub fn put(&mut self, name: &str, bytes: &[u8]) -> Result<(), AllocError>
        ensures ok { OnOk result (self.new ≡ record self.old { folder = insert self.old.folder name.now bytes.now }) }
        ensures err { OnErr result (self.new ≡ self.old) }
    {
        let bytes = Vec::from_slice(self.alloc, bytes)?;
        self.shelf.put(self.alloc, name, bytes)
    }

    /// The bytes of a name, where it is there.
    pub fn bytes(&self, name: &str) -> Option<&[u8]>
        ensures { option_copied result ≡ get self.now.folder name.now }
    {
        self.shelf.get(name)
    }

    /// Lets the call of this number fail, where the first call of `read`, `create`, `replace` or `append` has the
    /// number 1.
    pub fn fail_at(&mut self, call: u64) -> Result<(), AllocError>
        ensures ok { OnOk result (self.new ≡ record self.old { plan = with_failure call self.old.plan }) }
        ensures err { OnErr result (self.new ≡ self.old) }
    {
        self.plan.fail_at(call)
    }

    // The bytes of a name, within the limit, unless the read is to fail.
    fn find(
        &self,
        alloc: Global,
        name: &str,
        limit: usize,
        is_due: bool,
    ) -> Result<Vec<u8>, FileError>
        ensures answer { MatchResult result
            (λ bytes. found_file self.now.folder name.now limit ≡ Held bytes.items)
            (ErrorMatchesFile (found_file self.now.folder name.now limit)) }
        ensures fails { IsErrOf result FileError.Failed ↔ IsTrue is_due }
    {
        if is_due {
            return Err(FileError::Failed);
        }
        match self.shelf.get(name) {
            None => Err(FileError::Absent),
            Some(bytes) if bytes.len() > limit => Err(FileError::TooLarge),
            Some(bytes) => Ok(Vec::from_slice(alloc, bytes)?),
        }
    }
}

impl Files for MemFiles {
    ghost told = { λ files. Some files.folder };

    ghost counts = { λ files. files.counts };

    /// Answers `Failed` if the call is to fail, before the name is looked at. Room to note the name is made first, and
    /// there may be no memory for that.
    fn read(&mut self, alloc: Global, name: &str, limit: usize) -> Result<Vec<u8>, FileError>
        ensures answer { MatchResult result
            (λ bytes. found_file self.old.folder name.now limit ≡ Held bytes.items)
            (ErrorMatchesFile (found_file self.old.folder name.now limit)) }
        ensures same { self.new.folder ≡ self.old.folder }

        ensures fails { IsErrOf result FileError.Failed → IsDueFailure self.old.plan }
        ensures due { IsDueFailure self.old.plan → IsErrOf result FileError.Failed ⊎ IsErrOf result FileError.NoMemory }
        ensures called { self.new.plan ≡ after_call self.old.plan }
        ensures counted { self.new.counts ≡ after_read name.now self.old.counts result }
        ensures quiet { self.old.plan.failing ≡ [] → SameFaultCounts self.old.counts self.new.counts }
    {
        let is_due = self.plan.count_call();
        let note = String::from_str(self.alloc, name)?;
        self.asked.reserve(1)?;
        let outcome = self.find(alloc, name, limit, is_due);
        match outcome {
            Ok(_) => {}
            Err(FileError::Absent | FileError::TooLarge) => {
                self.misses = self.misses.saturating_add(1);
            }
            Err(FileError::Failed) => {
                self.read_faults = self.read_faults.saturating_add(1);
            }
            Err(FileError::NoMemory) => return outcome,
        }
        self.asked.push_reserved(note);
        outcome
    }

    /// A call that is to fail changes no file.
    fn create(&mut self, name: &str) -> Result<(), WriteError>
        ensures ok { OnOk result (self.new.folder ≡ insert self.old.folder name.now []) }
        ensures err { OnErr result (self.new.folder ≡ self.old.folder) }

        ensures fails { IsErrOf result WriteError.Failed ↔ IsDueFailure self.old.plan }
        ensures called { self.new.plan ≡ after_call self.old.plan }
        ensures counted { self.new.counts ≡ after_write self.old.counts result }
        ensures quiet { self.old.plan.failing ≡ [] → SameFaultCounts self.old.counts self.new.counts }
    {
        if self.plan.count_call() {
            self.write_faults = self.write_faults.saturating_add(1);
            return Err(WriteError::Failed);
        }
        self.shelf.put(self.alloc, name, Vec::new(self.alloc))?;
        Ok(())
    }

    /// A call that is to fail changes no file.
    fn replace(&mut self, name: &str, bytes: &[u8]) -> Result<(), WriteError>
        ensures ok { OnOk result (self.new.folder ≡ insert self.old.folder name.now bytes.now) }
        ensures err { OnErr result (self.new.folder ≡ self.old.folder) }

        ensures fails { IsErrOf result WriteError.Failed ↔ IsDueFailure self.old.plan }
        ensures called { self.new.plan ≡ after_call self.old.plan }
        ensures counted { self.new.counts ≡ after_write self.old.counts result }
        ensures quiet { self.old.plan.failing ≡ [] → SameFaultCounts self.old.counts self.new.counts }
    {
        if self.plan.count_call() {
            self.write_faults = self.write_faults.saturating_add(1);
            return Err(WriteError::Failed);
        }
        let bytes = Vec::from_slice(self.alloc, bytes)?;
        self.shelf.put(self.alloc, name, bytes)?;
        Ok(())
    }

    /// A call that is to fail writes the first half of the piece, rounded down, or answers `NoMemory`
    /// where there is no room for that.
    fn append(&mut self, name: &str, piece: &[u8]) -> Result<(), WriteError>
        ensures ok { OnOk result (self.new.folder ≡ appended_to_file name.now piece.now self.old.folder) }
        ensures failed { IsErrOf result WriteError.Failed → self.new.folder ≡ appended_to_file name.now (first_half piece.now) self.old.folder }
        ensures no_memory { IsErrOf result WriteError.NoMemory → self.new.folder ≡ self.old.folder }

        ensures fails { IsErrOf result WriteError.Failed → IsDueFailure self.old.plan }
        ensures passes { OnOk result (¬ IsDueFailure self.old.plan) }
        ensures called { self.new.plan ≡ after_call self.old.plan }
        ensures counted { self.new.counts ≡ after_write self.old.counts result }
        ensures quiet { self.old.plan.failing ≡ [] → SameFaultCounts self.old.counts self.new.counts }
    {
        if self.plan.count_call() {
            let half = piece.len() / 2;
            self.shelf.append(self.alloc, name, &piece[..half])?;
            self.write_faults = self.write_faults.saturating_add(1);
            return Err(WriteError::Failed);
        }
        self.shelf.append(self.alloc, name, piece)?;
        Ok(())
    }
}
