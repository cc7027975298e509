// Reading a schedule.
ghost use Rattle.std.specs.Prelude.{◌≡◌, ℕ, ◌<◌, ◌≤◌, IfOk, IsErrOf, Ok, Err};
ghost use Rattle.schedule_text.specs.Grammar.{SpellsSchedule, SpellsBadLineAt};
ghost use Rattle.schedule_text.specs.Limits.{most_runs};
ghost use Rattle.schedule_text.specs.Outcome.{AnswersOutcome};
ghost use Rattle.schedule_text.specs.inside.Reader.{ReadsLines};
ghost use Rattle.schedule_text.specs.Reading.{schedule_of, BadLineAt, TooManyRuns};
ghost use Rattle.schedule_text.specs.Schedule.{Schedule as Seen, IsSchedule, run_count};

use crate::draft::Draft;
use crate::error::ScheduleError;
use crate::schedule::Schedule;
use fri_bytes::Cursor;
use fri_text::next_line;
use std::alloc::Global;

/// The schedule that the bytes spell. A bad line anywhere comes before too many run items.
pub fn read_schedule(alloc: Global, bytes: &[u8]) -> Result<Schedule, ScheduleError>
    ensures exact { AnswersOutcome result (schedule_of bytes.now) }

    // What is answered is so.
    ensures found { IfOk result (λ s. SpellsSchedule bytes.now s × IsSchedule s) }
    ensures bad_line { (n : ℕ) → IsErrOf result (ScheduleError.BadLine n) → SpellsBadLineAt bytes.now n }
    ensures too_many { IsErrOf result ScheduleError.TooMany →
        (s : Seen) × SpellsSchedule bytes.now s × (most_runs < run_count s.items) }

    // What is so is answered, unless memory runs out.
    ensures spelled { (s : Seen) → SpellsSchedule bytes.now s → run_count s.items ≤ most_runs →
        AnswersOutcome result (Ok s) }
    ensures bad { (n : ℕ) → SpellsBadLineAt bytes.now n → AnswersOutcome result (Err (BadLineAt n)) }
    ensures over { (s : Seen) → SpellsSchedule bytes.now s → most_runs < run_count s.items →
        AnswersOutcome result (Err TooManyRuns) }
{
    read_whole(alloc, bytes)
}

fn read_whole(alloc: Global, bytes: &[u8]) -> Result<Schedule, ScheduleError>
    ensures { AnswersOutcome result (schedule_of bytes.now) }
{
    let draft = read_lines(alloc, bytes)?;
    Ok(draft.into_schedule())
}

/// What comes of all lines.
fn read_lines(alloc: Global, bytes: &[u8]) -> Result<Draft, ScheduleError>
    ensures { ReadsLines result (schedule_of bytes.now) }
{
    let mut draft = Draft::new(alloc);
    let mut lines = Cursor::new(bytes);
    let mut number: u64 = 1;
    while let Some(line) = next_line(&mut lines) {
        if !draft.take_line(alloc, line)? {
            return Err(ScheduleError::BadLine(number));
        }
        number += 1;
    }
    draft.check_end(number)?;
    Ok(draft)
}
