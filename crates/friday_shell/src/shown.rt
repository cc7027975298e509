// What a command shows of the group, which stays as it is.
ghost use Rattle.std.specs.Prelude.{◌≡◌, IfOk};
ghost use Rattle.friday_shell.specs.Answer.{memory_text, shows_frames, threads_of, value_text};
ghost use Rattle.friday_shell.specs.declared.state.PointsAndVariables.{PointsAndVariables as Kept};
ghost use Rattle.friday_shell.specs.inside.Meanings.{PerformsCommand, state_with};
ghost use Rattle.point_programs.specs.Running.{value_in};
ghost use Rattle.group_state.specs.Nodes.{nodes_at};
ghost use Rattle.expression_text.specs.Expression.{expression_of};

use crate::variables::value_here;
use fri_text::Text;
use group_state::Group;
use group_text::{push_frames, push_process};
use lib_calls::memory_part;
use point_programs::{Vars, push_value};
use shell_lines::{LineRefusal, refused};
use std::alloc::{AllocError, Global};
use watch_expr::Expr;

/// The value of an expression.
pub(crate) fn print(
    alloc: Global,
    group: &Group<'_, '_>,
    variables: &Vars,
    expression: &Expr,
) -> Result<Text, AllocError>
    ensures { IfOk result (λ text. text ≡ value_text (value_in (nodes_at group.now) variables.now (expression_of expression.now))) }
{
    let value = value_here(group, variables, expression);
    let mut text = Text::new(alloc);
    push_value(&mut text, value)?;
    text.push_str("\n")?;
    Ok(text)
}

/// A range of a node's memory.
pub(crate) fn show_memory(
    alloc: Global,
    group: &Group<'_, '_>,
    node: Option<u32>,
    addr: u64,
    len: u64,
) -> Result<Text, AllocError>
    ensures { IfOk result (λ text. text ≡ memory_text group.now node addr len) }
{
    let mut text = Text::new(alloc);
    let Some(node) = node else {
        return Ok(text);
    };
    let found = match group.process(node) {
        Some(process) => memory_part(alloc, process.memory(), addr, len)?,
        None => None,
    };
    match found {
        Some(bytes) => text.push_hex(alloc, bytes.as_slice())?,
        None => text.push_str("undef")?,
    }
    text.push_str("\n")?;
    Ok(text)
}

/// How the process of a node stands.
pub(crate) fn show_threads(
    alloc: Global,
    group: &Group<'_, '_>,
    node: Option<u32>,
) -> Result<Text, AllocError>
    ensures { IfOk result (λ text. text ≡ threads_of group.now node) }
{
    let mut text = Text::new(alloc);
    let Some(node) = node else {
        return Ok(text);
    };
    let Some(process) = group.process(node) else {
        return Ok(text);
    };
    push_process(alloc, &mut text, group, node, process)?;
    Ok(text)
}

/// The frames of a thread, where it was made.
pub(crate) fn show_frames(
    alloc: Global,
    group: &Group<'_, '_>,
    node: Option<u32>,
    thread: u64,
) -> Result<Text, AllocError>
    ensures { (kept : Kept) → IfOk result (λ text. PerformsCommand (shows_frames (state_with group.now kept) node thread) (state_with group.now kept) text) }
{
    let Some(node) = node else {
        return Ok(Text::new(alloc));
    };
    let Some(process) = group.process(node) else {
        return Ok(Text::new(alloc));
    };
    if thread >= u64::from(process.threads()) {
        return refused(alloc, LineRefusal::NoThread);
    }
    let frames = process.frames(alloc, thread as u16)?;
    let mut text = Text::new(alloc);
    push_frames(&mut text, thread, &frames)?;
    Ok(text)
}
