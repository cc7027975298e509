// The laws of replay, as a call that does nothing.
ghost use Rattle.proc_replay.specs.Course.{AreReplays, AreTurns};
ghost use Rattle.proc_replay.specs.Sizes.{AcceptedNoLonger};

/// Turns taken one after the other, from the first state of a process on, make the event of each entry
/// that is accepted, in order, and of no other; after so many of them the state is that of the replay of
/// so many entries; and the turns after them tell the verdict. Each turn leaves the outcome of the replay.
pub fn replays()
    ensures course { AreReplays }
    ensures turn { AreTurns }
{
    call_log::laws::entry_by_entry();
    guest_process::laws::counting();
}

/// The entries of the first events that are accepted take no more bytes in version 2 than in the version of their log.
pub fn accepted_no_longer()
    ensures { AcceptedNoLonger }
{
    call_log::laws::no_longer();
    guest_process::laws::legal_numbers();
    guest_process::laws::rises();
    guest_process::laws::states_fit();
}
