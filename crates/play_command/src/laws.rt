// What is so of all plays, as calls that do nothing.
ghost use Rattle.play_command.specs.Laws.{PlayedIsRecorded, PlaysWork};

/// A schedule and modules whose items find room, and an input within the limit, have an outcome that is work.
pub fn plays_work()
    ensures { PlaysWork }
{
    record_command::laws::recordings_work();
}

/// At each moment of a play its schedule is recorded to the run that was played: the schedule has the file's processes, its
/// items and those of the lines that were accepted since the play began or began again.
pub fn played_is_recorded()
    ensures { PlayedIsRecorded }
{
    schedule_text::laws::exact_outcome();
    schedule_text::laws::exact_item_lines();
}
