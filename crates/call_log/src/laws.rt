// The laws of logs, as calls that do nothing.
ghost use Rattle.call_log.specs.Laws.{ExactLogs, NoLonger, RewrittenIsRead};
ghost use Rattle.call_log.specs.Walk.{EntryStep, IsEndOfLog};

/// The functions that say what is in a log give what the bytes spell, and nothing else.
pub fn exact_logs()
    ensures { ExactLogs }
{
    fri_bytes::laws::exact_readers();
}

/// An entry whose numbers are no greater than those of an event takes no more bytes in version 2 than in
/// version 1.
pub fn no_longer()
    ensures { NoLonger }
{}

/// What a log is rewritten to is read as its head in version 2 and those entries, and nothing is left after them.
pub fn rewritten_is_read()
    ensures { RewrittenIsRead }
{
    exact_logs();
}

/// Where an entry is at the front of what is left of a log, it takes bytes, is the first of all its
/// entries, and what is left after it has the others and the same rest. Where none is there, there
/// is no entry, and all bytes are the rest.
pub fn entry_by_entry()
    ensures step { EntryStep }
    ensures end { IsEndOfLog }
{
    fri_bytes::laws::exact_readers();
}
