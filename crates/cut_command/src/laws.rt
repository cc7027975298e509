// What is so of all cuts, as a call that does nothing.
ghost use Rattle.cut_command.specs.Laws.{CutsWork};

/// The modules and logs of a group whose process has the event have an outcome that is work.
pub fn cuts_work()
    ensures { CutsWork }
{
    log_pairs::laws::opens_groups();
}
