// The variables of a session.
ghost use Rattle.std.specs.Prelude.{◌≡◌, ◌++◌, [], IfOk, OnOk};
ghost use Rattle.std.specs.List.{flat_map};
ghost use Rattle.point_programs.specs.Running.{value_in};
ghost use Rattle.friday_shell.specs.Answer.{command_answer, sets_variable, variable_text};
ghost use Rattle.friday_shell.specs.inside.Meanings.{PerformsCommand, state_with};
ghost use Rattle.group_state.specs.Place.{GroupPlace};
ghost use Rattle.group_state.specs.Nodes.{nodes_at};
ghost use Rattle.shell_lines.specs.Lines.{SetTo};
ghost use Rattle.expression_text.specs.Expression.{expression_of};

use crate::state::PointsAndVariables;
use fri_bytes::Bytes;
use fri_text::Text;
use group_state::Group;
use point_programs::{Vars, push_value};
use shell_lines::{LineRefusal, refused};
use std::alloc::{AllocError, Global};
use watch_expr::{Expr, eval};

/// How many variables there are at most.
pub(crate) const MOST_VARIABLES: usize = 256;

/// The value of an expression where a session is.
pub(crate) fn value_here(group: &Group<'_, '_>, variables: &Vars, expression: &Expr) -> Option<i64>
    ensures { result ≡ value_in (nodes_at group.now) variables.now (expression_of expression.now) }
{
    eval(expression, group, variables)
}

/// A variable gets the value of an expression, unless there were too many variables then.
pub(crate) fn set(
    alloc: Global,
    group: &Group<'_, '_>,
    kept: &mut PointsAndVariables,
    name: &Bytes,
    expression: &Expr,
) -> Result<Text, AllocError>
    ensures { IfOk result (λ text.
        PerformsCommand (command_answer (state_with group.now kept.old) [] (SetTo name.now (expression_of expression.now))) (state_with group.now kept.new) text) }
{
    let value = value_here(group, &kept.variables, expression);
    set_value(alloc, kept, name.as_slice(), value)
}

// A variable gets this value, unless there were too many variables then.
fn set_value(
    alloc: Global,
    kept: &mut PointsAndVariables,
    name: &[u8],
    value: Option<i64>,
) -> Result<Text, AllocError>
    ensures { (place : GroupPlace) → IfOk result (λ text. PerformsCommand (sets_variable (state_with place kept.old) name.now value) (state_with place kept.new) text) }
{
    let variables = &mut kept.variables;
    if !variables.is_mentioned(name) && variables.names() >= MOST_VARIABLES {
        return refused(alloc, LineRefusal::TooMany);
    }
    variables.set(alloc, name, value)?;
    Ok(Text::new(alloc))
}

/// The name of each variable, and its value.
pub(crate) fn list_variables(alloc: Global, variables: &Vars) -> Result<Text, AllocError>
    ensures { IfOk result (λ text. text ≡ flat_map variable_text variables.now) }
{
    let mut text = Text::new(alloc);
    for n in 0..variables.names() {
        let Some((name, value)) = variables.at(n) else {
            unreachable!();
        };
        push_variable(&mut text, name, value)?;
    }
    Ok(text)
}

fn push_variable(text: &mut Text, name: &[u8], value: Option<i64>) -> Result<(), AllocError>
    ensures { OnOk result (text.new ≡ text.old ++ variable_text (name.now, value)) }
{
    text.push_str("$")?;
    text.push_bytes(name)?;
    text.push_str(" ")?;
    push_value(text, value)?;
    text.push_str("\n")
}
