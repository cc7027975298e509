// What holds of programs, whatever their tokens are. This call does nothing.
ghost use Rattle.point_programs.specs.Laws.{ExactPrograms};

/// Tokens spell one program at most, `program_of` computes it, and where they spell none it stops at the first token
/// that no program could have there.
pub fn exact_programs()
    ensures { ExactPrograms }
{
    watch_expr::laws::exact_reading();
    watch_expr::laws::none_apart();
}
