// What a group has done.

use crate::group::Group;
use std::cell::Cell;

/// How many events a group has replayed since it began, those that it replayed again included, and how often an
/// expression read something of one of its nodes. Each count begins again after 2^64 - 1.
#[derive(Clone, Copy)]
pub struct Work {
    pub events: u64,
    pub reads: u64,
}

/// Counts what a group does.
#[derive(Drop)]
pub(crate) struct Counter {
    events: u64,
    reads: Cell<u64>,
}

impl Counter {
    pub(crate) fn new() -> Counter {
        Counter {
            events: 0,
            reads: Cell::new(0),
        }
    }

    pub(crate) fn count_event(&mut self) {
        self.events = self.events.wrapping_add(1);
    }

    pub(crate) fn count_read(&self) {
        self.reads.set(self.reads.get().wrapping_add(1));
    }
}

impl<'m, 'a> Group<'m, 'a> {
    /// What the group has done.
    pub fn work(&self) -> Work {
        let counter = &self.course().counter;
        Work {
            events: counter.events,
            reads: counter.reads.get(),
        }
    }
}
