// Files that stay open.
ghost use Rattle.std.specs.Prelude.{◌≡◌, ◌<◌, IfSome, IsTrue, length, vec_len};

use crate::WriteError;
use std::alloc::{AllocError, Global};
use std::fs::OpenFile;
use std::io::ErrorKind;

/// A file that is open, and the name by which it was opened.
#[derive(Drop)]
struct NamedFile<F: Drop> {
    name: String,
    file: F,
}

/// Files that stay open, each under a name of its own. Most often a file is asked for that stands behind the one that was
/// found last, or that one itself, so these names are compared first.
#[derive(Drop)]
pub(crate) struct OpenFiles<F: Drop> {
    files: Vec<NamedFile<F>>,
    last: usize,
}

impl<F: OpenFile + Drop> OpenFiles<F> {
    pub(crate) fn new(alloc: Global) -> Self {
        OpenFiles {
            files: Vec::new(alloc),
            last: 0,
        }
    }

    /// The file of this name, where it is open.
    #[inline(always)]
    pub(crate) fn get_mut(&mut self, name: &str) -> Option<&mut F> {
        self.last = self.index_of(name)?;
        match self.files.get_mut(self.last) {
            Some(open) => Some(&mut open.file),
            None => None,
        }
    }

    // Where the file of this name is among those that are open.
    #[inline(always)]
    fn index_of(&self, name: &str) -> Option<usize>
        ensures { IfSome result (λ index. index < vec_len self.now.files) }
    {
        let next = self.behind_last();
        if self.is_at(next, name) {
            return Some(next);
        }
        if self.is_at(self.last, name) {
            return Some(self.last);
        }
        index_in(self.files.as_slice(), name)
    }

    // The place behind that of the file that was found last. Behind the last place is the first.
    #[inline(always)]
    fn behind_last(&self) -> usize {
        let next = self.last.saturating_add(1);
        if next < self.files.len() { next } else { 0 }
    }

    // Whether the file at this place has this name.
    #[inline(always)]
    fn is_at(&self, index: usize, name: &str) -> bool
        ensures { IsTrue result → index < vec_len self.now.files }
    {
        match self.files.get(index) {
            Some(open) => open.name.as_str() == name,
            None => false,
        }
    }

    /// Makes room for one more file.
    pub(crate) fn reserve(&mut self) -> Result<(), AllocError> {
        self.files.reserve(1)
    }

    /// Keeps a file open. It needs no memory where there is room.
    pub(crate) fn keep(&mut self, name: String, file: F) -> Result<(), WriteError> {
        self.files.push(NamedFile { name, file })?;
        Ok(())
    }

    /// Closes the file of this name, where it is open.
    pub(crate) fn close(&mut self, name: &str) -> Result<(), WriteError> {
        match self.index_of(name) {
            Some(index) => close(self.files.swap_remove(index).file),
            None => Ok(()),
        }
    }

    /// Closes all files, also after one that cannot be closed.
    pub(crate) fn close_all(&mut self) -> Result<(), WriteError> {
        let mut closed = Ok(());
        for open in self.files.drain(..) {
            closed = closed.and(close(open.file));
        }
        closed
    }
}

// Where the file of this name is among these.
fn index_in<F: Drop>(files: &[NamedFile<F>], name: &str) -> Option<usize>
    ensures { IfSome result (λ index. index < length files.now) }
{
    files.iter().position(|open| open.name.as_str() == name)
}

/// Closes a file, and says whether the system has all its bytes. A pipe or a terminal has no disk behind
/// it, and is closed as it is.
pub(crate) fn close<F: OpenFile + Drop>(file: F) -> Result<(), WriteError> {
    match file.sync_data() {
        Err(error) if error.kind() != ErrorKind::InvalidInput => Err(WriteError::Failed),
        _ => Ok(()),
    }
}
