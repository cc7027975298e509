// What is so of all sessions, as calls that do nothing.
ghost use Rattle.debug_command.specs.Laws.{SessionsOfOneGroup, SessionsWork};

/// A group and an input within the limit have an outcome that is work.
pub fn sessions_work()
    ensures { SessionsWork }
{
    log_pairs::laws::opens_groups();
}

/// Sessions over groups with the same names, order of events and states come to the same, whatever is typed.
pub fn sessions_of_one_group()
    ensures { SessionsOfOneGroup }
{
    friday_shell::laws::same_group_same_session();
}
