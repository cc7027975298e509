// The law of cut logs, as a call that does nothing.
ghost use Rattle.causal_cut.specs.Laws.{FrontsReplay};

/// A log that is cut after some of its accepted events and written in version 2 is whole, is replayed to the states of
/// before, and is no longer.
pub fn fronts_replay()
    ensures { FrontsReplay }
{
    call_log::laws::exact_logs();
    call_log::laws::rewritten_is_read();
    proc_replay::laws::accepted_no_longer();
}
