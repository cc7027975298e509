// What is so of all recordings, as calls that do nothing.
ghost use Rattle.record_command.specs.Laws.{RecordingsAgree, RecordingsLeaveLogs, UntouchedFolderIsMoment, RecordingsStand, RecordingsWork};

/// The logs of a recording tell its events at each moment, also where the next entry comes after one in part. Each
/// datagram that was taken came from outside or is one that was sent; what waits is taken, and nothing twice.
pub fn recordings_agree()
    ensures { RecordingsAgree }
{
    command_run::laws::reads_modules();
    schedule_text::laws::exact_outcome();
    group_record::laws::beginning();
    group_record::laws::agreement();
    group_record::laws::delivery();
    group_record::laws::taking();
}

/// Once the files of the outcome are made, each process has its log, of the whole run.
pub fn recordings_leave_logs()
    ensures { RecordingsLeaveLogs }
{
    fri_outside::laws::keeps_files();
    schedule_text::laws::exact_outcome();
}

/// A schedule and modules that can be recorded whole have an outcome that is work, unless the schedule's own file would be made.
pub fn recordings_work()
    ensures { RecordingsWork }
{
    command_run::laws::reads_modules();
    schedule_text::laws::exact_outcome();
}

/// Before anything is made, a folder stands as at a moment of the run.
pub fn recordings_rest()
    ensures { UntouchedFolderIsMoment }
{}

/// Wherever a recording was stopped after its heads, the logs are those of a moment of its run, with at most a first part of
/// one more entry after each.
pub fn recordings_stand()
    ensures { RecordingsStand }
{
    fri_outside::laws::keeps_files();
    schedule_text::laws::exact_outcome();
}
