// What holds of the tokens of lines, whatever they are. This call does nothing.
ghost use Rattle.shell_lines.specs.Laws.{ExactCommands};

/// Tokens spell one command at most, `command_spelled` computes it, and where they spell none it stops at the first token
/// that no command could have there.
pub fn exact_commands()
    ensures { ExactCommands }
{
    watch_expr::laws::exact_reading();
    point_programs::laws::exact_programs();
    call_table::laws::read_back();
}
