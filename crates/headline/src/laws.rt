// The main theorem, as calls that do nothing.
ghost use Rattle.headline.specs.Headline.{Headline, LeftIsShown, WholeRecordings};

/// The modules and the whole logs of all processes of a recording, and these alone, are shown as they were recorded, in
/// whatever folder they are and whatever their files are called. Read this one first.
pub fn whole_recordings_are_shown()
    ensures { WholeRecordings }
{
    recordings_are_shown();
}

/// The modules and the logs of some processes at any moment of a recording are shown so, in whatever order they are named.
pub fn recordings_are_shown()
    ensures { Headline }
{
    command_run::laws::reads_modules();
    schedule_text::laws::exact_outcome();
    group_record::laws::beginning();
    group_record::laws::standing();
    record_command::laws::recordings_agree();
    group_state::laws::ordered();
    watch_expr::laws::variables_unseen();
    shell_points::laws::exact_firing();
    debug_command::laws::sessions_of_one_group();
}

/// What `record` leaves is shown so: the whole run after an answer, and wherever it was stopped after its heads a moment of
/// the run.
pub fn left_is_shown()
    ensures { LeftIsShown }
{
    recordings_are_shown();
    record_command::laws::recordings_leave_logs();
    record_command::laws::recordings_stand();
}
