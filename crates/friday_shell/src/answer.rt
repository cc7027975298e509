// What a command answers.
ghost use Rattle.std.specs.Prelude.{◌≡◌, ℕ, suc, ◌+◌, ◌<◌, ◌≤◌, ◌++◌, IfOk, OnOk, List, [], drop, length, min, take};
ghost use Rattle.friday_shell.specs.Answer.{command_answer};
ghost use Rattle.friday_shell.specs.declared.state.PointsAndVariables.{PointsAndVariables as Kept};
ghost use Rattle.friday_shell.specs.inside.Meanings.{PerformsCommand, WritesNext, state_with};
ghost use Rattle.friday_shell.specs.Ticks.{command_ticks};
ghost use Rattle.group_state.specs.Place.{events_of_replays};
ghost use Rattle.group_text.specs.Texts.{event_lines, last_lines, position_line};
ghost use Rattle.shell_lines.specs.Lines.{Back, Continue, Events, Goto, Rcontinue, Step};
ghost use Rattle.shell_lines.specs.Spelled.{command as command_meant, move_command, stay_command};
ghost use Rattle.shell_points.specs.Firing.{place_at};

use crate::points::{add, add_breakpoint, attach, delete};
use crate::shown::{print, show_frames, show_memory, show_threads};
use crate::state::PointsAndVariables;
use crate::variables::{list_variables, set};
use fri_text::Text;
use group_state::Group;
use group_text::{push_event_line, push_position};
use shell_lines::{DebuggerCommand, LineRefusal, MoveCommand, StayCommand, refused};
use shell_points::Trigger;
use std::alloc::{AllocError, Global};
use std::sync::ledger::Ledger;
use watch_expr::Steps;

/// Does a command, whose line without outer blanks is this, and gives what it answers.
pub(crate) fn perform<L: Ledger>(
    alloc: Global,
    group: &mut Group<'_, '_>,
    kept: &mut PointsAndVariables,
    line: &[u8],
    command: DebuggerCommand,
    steps: &mut Steps<L>,
) -> Result<Text, AllocError>
    ensures answer { IfOk result (
        PerformsCommand (command_answer (state_with group.old kept.old) line.now (command_meant command)) (state_with group.new kept.new)) }
    ensures start { OnOk result (group.new.start ≡ group.old.start) }
    ensures ticks { OnOk result (steps.new ≡ steps.old + command_ticks (state_with group.old kept.old) (command_meant command) group.new.at) }
{
    match command {
        DebuggerCommand::Moves(command) => go(alloc, group, kept, command, steps),
        DebuggerCommand::Stays(command) => stay(alloc, group, kept, line, command),
    }
}

// What a command answers that leaves the group where it is.
fn stay(
    alloc: Global,
    group: &Group<'_, '_>,
    kept: &mut PointsAndVariables,
    line: &[u8],
    command: StayCommand,
) -> Result<Text, AllocError>
    ensures { IfOk result (
        PerformsCommand (command_answer (state_with group.now kept.old) line.now (stay_command command)) (state_with group.now kept.new)) }
{
    match command {
        StayCommand::Print(expression) => print(alloc, group, &kept.variables, &expression),
        StayCommand::Mem(node, addr, len) => show_memory(alloc, group, node, addr, len),
        StayCommand::Threads(node) => show_threads(alloc, group, node),
        StayCommand::Frames(node, thread) => show_frames(alloc, group, node, thread),
        StayCommand::Watch(expression, condition) => {
            add(alloc, kept, line, Trigger::Watch(expression), condition)
        }
        StayCommand::Break(scope, kind, condition) => {
            add_breakpoint(alloc, kept, line, scope, kind, condition)
        }
        StayCommand::Delete(number) => delete(alloc, kept, number),
        StayCommand::Do(number, program) => attach(alloc, kept, number, program),
        StayCommand::List => kept.points.list(alloc),
        StayCommand::Set(name, expression) => set(alloc, group, kept, &name, &expression),
        StayCommand::Vars => list_variables(alloc, &kept.variables),
        StayCommand::Quit => Ok(Text::new(alloc)),
    }
}

// What a command answers that moves the group.
fn go<L: Ledger>(
    alloc: Global,
    group: &mut Group<'_, '_>,
    kept: &mut PointsAndVariables,
    command: MoveCommand,
    steps: &mut Steps<L>,
) -> Result<Text, AllocError>
    ensures answer { (line : List ℕ) → IfOk result (
        PerformsCommand (command_answer (state_with group.old kept.old) line (move_command command)) (state_with group.new kept.new)) }
    ensures ticks { OnOk result (steps.new ≡ steps.old + command_ticks (state_with group.old kept.old) (move_command command) group.new.at) }
{
    match command {
        MoveCommand::Goto(position) => go_to(alloc, group, position),
        MoveCommand::Step(count) => step(alloc, group, count),
        MoveCommand::Back(count) => back(alloc, group, count),
        MoveCommand::Events(count) => last_events(alloc, group, count),
        MoveCommand::Continue(most) => go_on(alloc, group, kept, most, steps),
        MoveCommand::Rcontinue => return_back(alloc, group, kept, steps),
    }
}

// Goes to a position.
fn go_to(alloc: Global, group: &mut Group<'_, '_>, position: u64) -> Result<Text, AllocError>
    ensures { (kept : Kept) → IfOk result (PerformsCommand (command_answer (state_with group.old kept) [] (Goto position)) (state_with group.new kept)) }
{
    if group.goto(alloc, position)? {
        position_text(alloc, group)
    } else {
        refused(alloc, LineRefusal::NoPosition)
    }
}

// The line of the position of the group.
fn position_text(alloc: Global, group: &Group<'_, '_>) -> Result<Text, AllocError>
    ensures { IfOk result (λ text. text ≡ position_line group.now) }
{
    let mut text = Text::new(alloc);
    push_position(&mut text, group)?;
    Ok(text)
}

// Goes so many positions forward, and at most to the end.
fn step(alloc: Global, group: &mut Group<'_, '_>, count: u64) -> Result<Text, AllocError>
    ensures { (kept : Kept) → IfOk result (PerformsCommand (command_answer (state_with group.old kept) [] (Step count)) (state_with group.new kept)) }
{
    advance(group, count)?;
    position_text(alloc, group)
}

// The same, without a word.
fn advance(group: &mut Group<'_, '_>, count: u64) -> Result<(), AllocError>
    ensures { OnOk result (group.new ≡ place_at group.old.start (min (group.old.at + count) (length (events_of_replays group.old.start)))) }
{
    let _ = group.position();
    let mut left = count;
    'steps: while left > 0 {
        if group.forward()?.is_none() {
            return Ok(());
        }
        left -= 1;
    }
    Ok(())
}

// Goes so many positions back, and at most to position 0.
fn back(alloc: Global, group: &mut Group<'_, '_>, count: u64) -> Result<Text, AllocError>
    ensures { (kept : Kept) → IfOk result (PerformsCommand (command_answer (state_with group.old kept) [] (Back count)) (state_with group.new kept)) }
{
    let position = group.position().saturating_sub(count);
    go_to(alloc, group, position)
}

// Goes on to where a point fires, and over so many positions at most.
fn go_on<L: Ledger>(
    alloc: Global,
    group: &mut Group<'_, '_>,
    kept: &mut PointsAndVariables,
    most: Option<u64>,
    steps: &mut Steps<L>,
) -> Result<Text, AllocError>
    ensures answer { IfOk result (PerformsCommand (command_answer (state_with group.old kept.old) [] (Continue most)) (state_with group.new kept.new)) }
    ensures ticks { OnOk result (steps.new ≡ steps.old + command_ticks (state_with group.old kept.old) (Continue most) group.new.at) }
{
    let mut text = kept
        .points
        .walk(alloc, group, &mut kept.variables, most, steps)?;
    push_position(&mut text, group)?;
    Ok(text)
}

// Goes back to where a point fired last.
fn return_back<L: Ledger>(
    alloc: Global,
    group: &mut Group<'_, '_>,
    kept: &PointsAndVariables,
    steps: &mut Steps<L>,
) -> Result<Text, AllocError>
    ensures answer { IfOk result (PerformsCommand (command_answer (state_with group.old kept.now) [] Rcontinue) (state_with group.new kept.now)) }
    ensures ticks { OnOk result (steps.new ≡ steps.old + command_ticks (state_with group.old kept.now) Rcontinue 0) }
{
    let mut text = kept.points.walk_back(alloc, group, steps)?;
    push_position(&mut text, group)?;
    Ok(text)
}

// The last events up to the position, which are made once more.
fn last_events(alloc: Global, group: &mut Group<'_, '_>, count: u64) -> Result<Text, AllocError>
    ensures group { OnOk result (group.new ≡ group.old) }
    ensures text { IfOk result (λ text. text ≡ last_lines group.old count) }
{
    let at = group.position();
    let from = at.saturating_sub(count);
    group.goto(alloc, from)?;
    let mut text = Text::new(alloc);
    write_events(group, from, at, &mut text)?;
    Ok(text)
}

// Writes the events from position `from`, where the group is, up to position `at`, as they are made.
fn write_events(
    group: &mut Group<'_, '_>,
    from: u64,
    at: u64,
    text: &mut Text,
) -> Result<(), AllocError>
    requires begins { group.old.at ≡ from }
    requires before { from ≤ at }
    requires within { at ≤ length (events_of_replays group.old.start) }
    ensures group { OnOk result (group.new ≡ place_at group.old.start at) }
    ensures text { OnOk result (text.new ≡ text.old ++ event_lines group.old.start (suc from) (drop from (take at (events_of_replays group.old.start)))) }
{
    for position in from..at {
        write_next(group, position + 1, text)?;
    }
    Ok(())
}

// Makes the next event, which there is and leads to this position, and writes it.
fn write_next(group: &mut Group<'_, '_>, position: u64, text: &mut Text) -> Result<(), AllocError>
    requires next { position ≡ suc group.old.at }
    requires within { position ≤ length (events_of_replays group.old.start) }
    ensures { OnOk result (WritesNext group.old group.new text.old text.new) }
{
    let Some(event) = group.forward()? else {
        unreachable!();
    };
    push_event_line(text, group, position, &event)
}
