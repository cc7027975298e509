// A schedule in the making.
ghost use Rattle.std.specs.Prelude.{◌≡◌, nat_le};
ghost use Rattle.std.specs.List.{list_any};
ghost use Rattle.std.specs.Str.{bytes_eq};
ghost use Rattle.schedule_text.specs.Limits.{most_runs};
ghost use Rattle.schedule_text.specs.inside.Reader.{EndsSchedule, TakesLine};
ghost use Rattle.schedule_text.specs.Schedule.{IsSchedule, run_count};
ghost use Rattle.schedule_text.specs.Reading.{nothing_read, schedule_part, whole_schedule_of, is_header as is_header_line, with_schedule_line, with_fields, with_process, with_schedule_item};

use crate::error::ScheduleError;
use crate::fields::Fields;
use crate::item::{Item, read_item};
use crate::limits::MOST_RUNS;
use crate::process::{ProcessLine, read_process};
use crate::schedule::Schedule;
use lamport_tag::MOST_PROCESSES;
use std::alloc::{AllocError, Global};
use std::marker::Model;

/// What has come so far of a schedule.
#[derive(Drop)]
pub(crate) struct Draft {
    has_header: bool,
    processes: Vec<ProcessLine>,
    items: Vec<Item>,
}

impl Model for Draft {
    ghost use Rattle.std.specs.Prelude.{◌≤◌, vec_len};
    ghost use Rattle.lamport_tag.specs.Limits.{most_processes};
    ghost use Rattle.schedule_text.specs.Reading.{SchedulePart};

    ghost Value = { SchedulePart };

    ghost view = { λ d. record { has_header = d.has_header; processes = d.processes.items; items = d.items.items } };

    ghost invariant = { λ d. vec_len d.processes ≤ most_processes };
}

impl Draft {
    /// Before the first line.
    pub(crate) fn new(alloc: Global) -> Draft
        ensures { result ≡ nothing_read }
    {
        Draft {
            has_header: false,
            processes: Vec::new(alloc),
            items: Vec::new(alloc),
        }
    }

    /// Takes the next line, and says whether it is allowed here.
    #[tactic(auto, unfolding(crate::specs::Reading::with_schedule_line))]
    pub(crate) fn take_line(&mut self, alloc: Global, line: &[u8]) -> Result<bool, AllocError>
        ensures { TakesLine result self.new (with_schedule_line self.old line.now) }
    {
        let mut fields = Fields::new(line);
        match fields.next_field() {
            None => Ok(true),
            Some(word) if word.starts_with(b"#") => Ok(true),
            Some(word) => self.take_fields(alloc, word, &mut fields),
        }
    }

    /// Takes a line with this first word, which begins no comment, and these fields after it.
    #[tactic(auto, unfolding(crate::specs::Reading::with_fields))]
    fn take_fields(
        &mut self,
        alloc: Global,
        word: &[u8],
        fields: &mut Fields,
    ) -> Result<bool, AllocError>
        ensures { TakesLine result self.new (with_fields self.old word.now fields.old) }
    {
        if !self.has_header {
            self.has_header = is_header(word, fields);
            return Ok(self.has_header);
        }
        if word == b"process".as_slice() {
            self.take_process(alloc, fields)
        } else {
            self.take_item(alloc, word, fields)
        }
    }

    /// Takes a line with these fields after the word `process`.
    #[tactic(auto, unfolding(crate::specs::Reading::with_process))]
    fn take_process(&mut self, alloc: Global, fields: &mut Fields) -> Result<bool, AllocError>
        ensures { TakesLine result self.new (with_process self.old fields.old) }
    {
        if !self.items.is_empty() || self.processes.len() >= MOST_PROCESSES {
            return Ok(false);
        }
        let Some(line) = read_process(alloc, fields)? else {
            return Ok(false);
        };
        if has_name(&self.processes, line.name.as_slice()) {
            return Ok(false);
        }
        self.processes.push(line)?;
        Ok(true)
    }

    /// Takes an item.
    #[tactic(auto, unfolding(crate::specs::Reading::with_schedule_item))]
    fn take_item(
        &mut self,
        alloc: Global,
        word: &[u8],
        fields: &mut Fields,
    ) -> Result<bool, AllocError>
        ensures { TakesLine result self.new (with_schedule_item self.old word.now fields.old) }
    {
        let Some(item) = read_item(alloc, word, self.processes.len() as u32, fields)? else {
            return Ok(false);
        };
        self.items.push(item)?;
        Ok(true)
    }

    /// Whether the lines that have come may be all, where the next would have this number.
    #[tactic(auto, unfolding(crate::specs::Reading::whole_schedule_of))]
    pub(crate) fn check_end(&self, number: u64) -> Result<(), ScheduleError>
        ensures { EndsSchedule result self.now (whole_schedule_of number self.now) }
    {
        if self.processes.is_empty() {
            return Err(ScheduleError::BadLine(number));
        }
        if !is_within_runs(&self.items) {
            return Err(ScheduleError::TooMany);
        }
        Ok(())
    }

    /// The schedule that has come.
    pub(crate) fn into_schedule(self) -> Schedule
        requires { IsSchedule (schedule_part self) }
        ensures { result ≡ schedule_part self }
    {
        Schedule::new(self.processes, self.items)
    }
}

/// Whether the line with this first word and these fields after it is the header.
fn is_header(word: &[u8], fields: &mut Fields) -> bool
    ensures { result ≡ is_header_line word.now fields.old }
{
    matches!(word, b"friday") && matches!(fields.last_field(), Some(b"1"))
}

/// Whether a process has this name.
fn has_name(processes: &[ProcessLine], name: &[u8]) -> bool
    ensures { result ≡ list_any (λ other. bytes_eq other.name name.now) processes.now }
{
    processes.iter().any(|other| other.name.as_slice() == name)
}

/// Whether the run items, repeats counted, are at most `MOST_RUNS`.
fn is_within_runs(items: &[Item]) -> bool
    ensures { result ≡ nat_le (run_count items.now) most_runs }
{
    let mut left = MOST_RUNS;
    for item in items {
        match left.checked_sub(item.tries()) {
            Some(rest) => left = rest,
            None => return false,
        }
    }
    true
}
