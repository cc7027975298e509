// A whole schedule.
ghost use Rattle.std.specs.Prelude.{◌≡◌};
ghost use Rattle.schedule_text.specs.Schedule.{IsSchedule};

use crate::item::Item;
use crate::process::ProcessLine;
use std::marker::Model;

/// A schedule: the processes of a group, numbered from 0, and what happens to them, in order. Each
/// schedule is in range: `IsSchedule` holds of it. Contracts see the two lists.
pub struct Schedule {
    processes: Vec<ProcessLine>,
    items: Vec<Item>,
}

// By hand, so that it is proved here, and not in each crate that owns one.
impl Drop for Schedule {
    fn drop(self) {
        let Self {
            processes: _processes,
            items: _items,
        } = self;
    }
}

impl Model for Schedule {
    ghost use Rattle.schedule_text.specs.Schedule.{Schedule as Seen, IsSchedule};

    ghost Value = { Seen };

    ghost view = { λ s. record { processes = s.processes.items; items = s.items.items } };

    ghost invariant = { λ s. IsSchedule (record { processes = s.processes.items; items = s.items.items }) };
}

impl Schedule {
    /// The schedule of these processes and items.
    pub fn new(processes: Vec<ProcessLine>, items: Vec<Item>) -> Schedule
        requires { IsSchedule (record { processes = processes.items; items = items.items }) }
        ensures { result ≡ record { processes = processes.items; items = items.items } }
    {
        Schedule { processes, items }
    }

    /// The processes, in order of their numbers.
    pub fn processes(&self) -> &[ProcessLine]
        ensures value { result.now ≡ self.now.processes }
        ensures in_range { IsSchedule self.now }
    {
        self.processes.as_slice()
    }

    /// The items, in order.
    pub fn items(&self) -> &[Item]
        ensures value { result.now ≡ self.now.items }
        ensures in_range { IsSchedule self.now }
    {
        self.items.as_slice()
    }
}
