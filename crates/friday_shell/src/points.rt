// The commands that change the points of a session.
ghost use Rattle.std.specs.Prelude.{◌≡◌, ◌++◌, IfOk, codes, decimal};
ghost use Rattle.point_programs.specs.Tree.{program_body};
ghost use Rattle.friday_shell.specs.Answer.{adds_point, attaches_program, breaks_at, deletes_point};
ghost use Rattle.friday_shell.specs.inside.Meanings.{PerformsCommand, state_with};
ghost use Rattle.group_state.specs.Place.{GroupPlace};
ghost use Rattle.shell_lines.specs.Spelled.{scope as scope_meant};
ghost use Rattle.shell_points.specs.Meanings.{held_condition as condition_meant, trigger as trigger_meant};

use crate::state::PointsAndVariables;
use crate::variables::MOST_VARIABLES;
use fri_text::Text;
use lib_calls::Kind;
use point_programs::Program;
use shell_lines::{LineRefusal, WhichNodes, refused};
use shell_points::Trigger;
use std::alloc::{AllocError, Global};
use watch_expr::Expr;

// How many points are held at most.
const MOST_POINTS: usize = 64;

/// A point more, which this line makes, unless there are as many as there may be.
pub(crate) fn add(
    alloc: Global,
    kept: &mut PointsAndVariables,
    line: &[u8],
    trigger: Trigger,
    condition: Option<Expr>,
) -> Result<Text, AllocError>
    ensures { (place : GroupPlace) → IfOk result (λ text. PerformsCommand (adds_point (state_with place kept.old) line.now (trigger_meant trigger) (condition_meant condition)) (state_with place kept.new) text) }
{
    if kept.points.count() >= MOST_POINTS {
        return refused(alloc, LineRefusal::TooMany);
    }
    kept.made = kept.made.checked_add(1).ok_or(AllocError)?;
    kept.points.add(alloc, kept.made, line, trigger, condition)?;
    numbered(alloc, "point ", kept.made)
}

/// A breakpoint more. Of one for a node that no process is, nothing is said.
pub(crate) fn add_breakpoint(
    alloc: Global,
    kept: &mut PointsAndVariables,
    line: &[u8],
    scope: WhichNodes,
    kind: Option<Kind>,
    condition: Option<Expr>,
) -> Result<Text, AllocError>
    ensures { (place : GroupPlace) → IfOk result (λ text. PerformsCommand (breaks_at (state_with place kept.old) line.now kind (condition_meant condition) (scope_meant scope)) (state_with place kept.new) text) }
{
    match scope {
        WhichNodes::Everywhere => { add(alloc, kept, line, Trigger::Break(None, kind), condition) }
        WhichNodes::At(Some(node)) => {
            add(
                alloc,
                kept,
                line,
                Trigger::Break(Some(node), kind),
                condition,
            )
        }
        WhichNodes::At(None) => Ok(Text::new(alloc)),
    }
}

/// The point with this number is gone, where it is held.
pub(crate) fn delete(
    alloc: Global,
    kept: &mut PointsAndVariables,
    number: u64,
) -> Result<Text, AllocError>
    ensures { (place : GroupPlace) → IfOk result (λ text. PerformsCommand (deletes_point (state_with place kept.old) number) (state_with place kept.new) text) }
{
    if !kept.points.is_held(number) {
        return refused(alloc, LineRefusal::NoPoint);
    }
    kept.points.remove(number);
    numbered(alloc, "deleted ", number)
}

/// Attaches a program to the point with this number, in place of an older one, where it is held; and mentions all variables
/// that the program sets, unless there were too many then.
pub(crate) fn attach(
    alloc: Global,
    kept: &mut PointsAndVariables,
    number: u64,
    program: Program,
) -> Result<Text, AllocError>
    ensures { (place : GroupPlace) → IfOk result (λ text. PerformsCommand (attaches_program (state_with place kept.old) number (program_body program)) (state_with place kept.new) text) }
{
    let Some(index) = kept.points.index_of(number) else {
        return refused(alloc, LineRefusal::NoPoint);
    };
    if !kept.variables.mention_all(alloc, &program, MOST_VARIABLES)? {
        return refused(alloc, LineRefusal::TooMany);
    }
    kept.points.attach(index, program);
    Ok(Text::new(alloc))
}

// A line of words and a number.
fn numbered(alloc: Global, words: &str, number: u64) -> Result<Text, AllocError>
    ensures { IfOk result (λ text. text ≡ words.now ++ (decimal number ++ codes "\n")) }
{
    let mut text = Text::new(alloc);
    text.push_str(words)?;
    text.push_u64(number)?;
    text.push_str("\n")?;
    Ok(text)
}
