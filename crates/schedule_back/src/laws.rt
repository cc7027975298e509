// The law of the converse, as a call that does nothing.
ghost use Rattle.schedule_back.specs.Laws.{Converse};

/// The schedule of the logs of a whole group records to them: none of its items is idle, no log is full, and each process
/// has exactly the entries of its log.
pub fn records_back()
    ensures { Converse }
{
    call_log::laws::exact_logs();
    group_state::laws::ordered();
    group_state::laws::stepwise();
    guest_process::laws::possible();
    guest_process::laws::legal_numbers();
    guest_process::laws::states_fit();
    proc_replay::laws::accepted_no_longer();
}
