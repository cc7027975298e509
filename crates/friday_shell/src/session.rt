// A session of the debugger.
ghost use Rattle.std.specs.Prelude.{◌≡◌, ℕ, ◌+◌, ◌<◌, ◌≤◌, ◌^◌, IfOk, OnOk, List, Ok, codes, length, true};
ghost use Rattle.std.specs.Result.{IsOk};
ghost use Rattle.conversation.specs.Talker.{is_quit};
ghost use Rattle.group_state.specs.Place.{node_names};
ghost use Rattle.friday_shell.specs.Answer.{answer, answer_of_meaning, command_answer};
ghost use Rattle.friday_shell.specs.Points.{SessionState};
ghost use Rattle.friday_shell.specs.inside.Meanings.{state_with};
ghost use Rattle.friday_shell.specs.Meanings.{IsLineAnswer};
ghost use Rattle.friday_shell.specs.Session.{opening_session};
ghost use Rattle.friday_shell.specs.Ticks.{line_ticks, meaning_ticks};
ghost use Rattle.shell_lines.specs.Meaning.{is_silent, line_meaning, trimmed};
ghost use Rattle.shell_lines.specs.Spelled.{command, meaning};
ghost use Rattle.shell_lines.specs.declared.line.Line.TheVariants.{Silent};

use crate::answer::perform;
use crate::state::PointsAndVariables;
use conversation::Go;
use fri_bytes::Bytes;
use fri_text::Text;
use group_state::Group;
use point_programs::Vars;
use shell_lines::{DebuggerCommand, Line, StayCommand, read_line, refused, trimmed};
use shell_points::Points;
use std::alloc::{AllocError, Global};
use std::marker::Model;
use std::sync::ledger::Ledger;
use watch_expr::Steps;

/// A debugger over the logs of a group. Contracts see where its group is, the points that it holds, how many were
/// made, and the variables.
pub struct Session<'m, 'a> {
    group: Group<'m, 'a>,
    kept: PointsAndVariables,
    names: Vec<Bytes>,
}

// By hand, so that it is proved here, and not in each crate that owns one.
impl Drop for Session<'_, '_> {
    fn drop(self) {
        let Self {
            group: _group,
            kept: _kept,
            names: _names,
        } = self;
    }
}

impl<'m, 'a> Model for Session<'m, 'a> {
    ghost use Rattle.std.specs.Prelude.{◌≡◌, ◌<◌, ◌^◌, length};
    ghost use Rattle.std.specs.Coded.{codes};
    ghost use Rattle.guest_process.specs.Coding.{crew_code, trees_code};
    ghost use Rattle.expression_text.specs.Coding.{expression_code};
    ghost use Rattle.point_programs.specs.Coding.{statements_code};
    ghost use Rattle.friday_shell.specs.Points.{SessionState};

    ghost Value = { SessionState };

    ghost coded = { Prim.hlevel (codes, trees_code, crew_code, expression_code, statements_code) };

    ghost use Rattle.group_state.specs.Place.{node_names};
    ghost use Rattle.friday_shell.specs.inside.Meanings.{state_with};

    ghost view = { λ s. state_with s.group s.kept };

    ghost invariant = { λ s. (s.names.items ≡ node_names s.group.start) × (length s.names.items < 2 ^ 32) };
}

impl<'m, 'a> Session<'m, 'a> {
    /// A session over a group at position 0, and the line with which it begins.
    pub fn begin(alloc: Global, group: Group<'m, 'a>) -> Result<(Session<'m, 'a>, Text), AllocError>
        requires { group.at ≡ 0 }
        ensures session { IfOk result (λ begun. begun.0 ≡ opening_session group.entry.start) }
        ensures text { IfOk result (λ begun. begun.1 ≡ codes "at 0\n") }
    {
        let names = node_names(alloc, &group)?;
        let mut text = Text::new(alloc);
        text.push_str("at 0\n")?;
        let kept = PointsAndVariables {
            points: Points::new(alloc),
            made: 0,
            variables: Vars::new(alloc),
        };
        let session = Session { group, kept, names };
        Ok((session, text))
    }

    /// The answer of a line, without its line feed, and whether the session goes on. A line that is refused leaves the
    /// session as it was. A silent line takes no memory. The counter ticks where a walk evaluates a watchpoint after its
    /// begin, which is where an event touched something that the watchpoint reads.
    pub fn answer_line<L: Ledger>(
        self,
        alloc: Global,
        line: &[u8],
        steps: &mut Steps<L>,
    ) -> Result<(Session<'m, 'a>, Text, Go), AllocError>
        ensures answer { IfOk result (λ said. IsLineAnswer (answer self.entry line.now) said.0 said.1 said.2) }
        ensures silent { length line.now ≤ 4096 → is_silent line.now ≡ true → IsOk result }
        ensures ticks { IfOk result (λ said. steps.new ≡ steps.old + line_ticks self.entry line.now said.0.place.at) }
    {
        let Session {
            mut group,
            mut kept,
            names,
        } = self;
        let meant = read_line(alloc, line, &names)?;
        let (text, goes) = answer_meant(alloc, &mut group, &mut kept, line, meant, steps)?;
        let session = Session { group, kept, names };
        Ok((session, text, goes))
    }

    /// The group, which is at the session's position.
    pub fn group(&self) -> &Group<'m, 'a>
        ensures { result.now ≡ self.now.place }
    {
        &self.group
    }
}

// What a line answers that was read so, and whether the session goes on.
fn answer_meant<L: Ledger>(
    alloc: Global,
    group: &mut Group<'_, '_>,
    kept: &mut PointsAndVariables,
    line: &[u8],
    meant: Line,
    steps: &mut Steps<L>,
) -> Result<(Text, Go), AllocError>
    ensures answer { IfOk result (λ said. IsLineAnswer (answer_of_meaning (state_with group.old kept.old) (trimmed line.now) (meaning meant)) (state_with group.new kept.new) said.0 said.1) }
    ensures start { OnOk result (group.new.start ≡ group.old.start) }
    ensures silent { meant ≡ Silent → IsOk result }
    ensures ticks { OnOk result (steps.new ≡ steps.old + meaning_ticks (state_with group.old kept.old) (meaning meant) group.new.at) }
{
    match meant {
        Line::Silent => Ok((Text::new(alloc), Go::On)),
        Line::Refused(why) => Ok((refused(alloc, why)?, Go::On)),
        Line::Does(command) => {
            let goes = go_after(&command);
            let text = perform(alloc, group, kept, trimmed(line), command, steps)?;
            Ok((text, goes))
        }
    }
}

// Whether a session goes on after a command.
fn go_after(spelled: &DebuggerCommand) -> Go
    ensures { (state : SessionState) (line : List ℕ) → is_quit result ≡ (command_answer state line (command spelled.now)).quits }
{
    match spelled {
        DebuggerCommand::Stays(StayCommand::Quit) => Go::Quit,
        _ => Go::On,
    }
}

// The names of a group's processes.
fn node_names(alloc: Global, group: &Group<'_, '_>) -> Result<Vec<Bytes>, AllocError>
    ensures names { IfOk result (λ names. names.items ≡ node_names group.now.start) }
    ensures fits { IfOk result (λ names. length names.items < 2 ^ 32) }
{
    let mut names = Vec::new(alloc);
    for node in 0..group.nodes() {
        let Some(name) = group.node_name(node) else {
            unreachable!();
        };
        names.push(Bytes::from_slice(alloc, name)?)?;
    }
    Ok(names)
}
