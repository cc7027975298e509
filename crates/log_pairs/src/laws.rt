// What is so of the files of all groups, as a call that does nothing.
ghost use Rattle.log_pairs.specs.Laws.{OpensGroups};

/// The replays of a group's logs begin, where its modules and logs are valid.
pub fn opens_groups()
    ensures { OpensGroups }
{
    command_run::laws::reads_modules();
    command_run::laws::finds_logs();
}
