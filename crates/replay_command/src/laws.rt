// What is so of all replays, as a call that does nothing.
ghost use Rattle.replay_command.specs.Laws.{ReplaysWork};

/// The modules and logs of a group have an outcome that is work, unless an image would be made in the place of one of them.
pub fn replays_work()
    ensures { ReplaysWork }
{
    log_pairs::laws::opens_groups();
}
