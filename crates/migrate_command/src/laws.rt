// What is so of all migrations, as calls that do nothing.
ghost use Rattle.migrate_command.specs.Laws.{MigrationsKeep, MigrationsWork};

/// The file that a migration makes is read as the log that was read: with its head, in version 2, with its entries, and
/// with nothing after them.
pub fn migrations_keep()
    ensures { MigrationsKeep }
{
    fri_outside::laws::keeps_files();
    call_log::laws::exact_logs();
    call_log::laws::rewritten_is_read();
    command_run::laws::reads_modules();
}

/// A log whose newer form is within the limit has an outcome that is work.
pub fn migrations_work()
    ensures { MigrationsWork }
{
    command_run::laws::finds_logs();
}
