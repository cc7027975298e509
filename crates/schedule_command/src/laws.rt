// What is so of all schedules that are made of logs, as a call that does nothing.
ghost use Rattle.schedule_command.specs.Laws.{SchedulesWork};

/// The modules and logs of a whole group have an outcome that is work.
pub fn schedules_work()
    ensures { SchedulesWork }
{
    log_pairs::laws::opens_groups();
}
