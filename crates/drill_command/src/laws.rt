// What is so of all drills, as a call that does nothing.
ghost use Rattle.drill_command.specs.Laws.{FillsNoLog};

/// No drill fills a log: each try makes one short entry at most, and there are few tries.
pub fn fills_no_log()
    ensures { FillsNoLog }
{}
