// What a line of a session is.
ghost use Rattle.std.specs.Prelude.{◌≡◌, ◌<◌, ◌≤◌, ◌^◌, ◌||◌, IfOk, Ok, false, length, not, true};
ghost use Rattle.std.specs.List.{find};
ghost use Rattle.shell_lines.specs.Lines.{has_nested, is_in_condition, names_none, scopes_none, watches_variable};
ghost use Rattle.shell_lines.specs.Meaning.{is_silent, judged_command, line_meaning, trimmed, without_end_blanks, without_front_blanks};
ghost use Rattle.shell_lines.specs.declared.line.Line.TheVariants.{Silent};
ghost use Rattle.shell_lines.specs.inside.Reading.{SpellsCommand};
ghost use Rattle.shell_lines.specs.Spelled.{command, condition as condition_meant, meaning, scope, stay_command};
ghost use Rattle.expression_text.specs.Expression.{expression_of};
ghost use Rattle.expression_text.specs.Faulty.{is_nested, lacks_node, lacks_some_node, names_variable};
ghost use Rattle.expression_text.specs.Lexing.{is_blank};

use crate::command::{DebuggerCommand, StayCommand, WhichNodes};
use crate::refusal::LineRefusal;
use crate::verbs::read_command;
use fri_bytes::Bytes;
use point_programs::program_faults;
use std::alloc::{AllocError, Global};
use watch_expr::{Expr, ExprError, find_faults, is_blank, lex};

// How many bytes a line has at most.
const MOST_LINE_BYTES: usize = 4096;

/// What a line is: nothing, a line that is refused, or a command.
#[derive(Drop)]
pub enum Line {
    Silent,
    Refused(LineRefusal),
    Does(DebuggerCommand),
}

/// What a line is, over a group whose processes have these names.
pub fn read_line(alloc: Global, bytes: &[u8], names: &[Bytes]) -> Result<Line, AllocError>
    requires { length names.now < 2 ^ 32 }
    ensures line { IfOk result (λ line. meaning line ≡ line_meaning names.now bytes.now) }
    ensures silent { length bytes.now ≤ 4096 → is_silent bytes.now ≡ true → result ≡ Ok Silent }
{
    if bytes.len() > MOST_LINE_BYTES {
        return Ok(Line::Refused(LineRefusal::TooLong));
    }
    if is_silent(bytes) {
        return Ok(Line::Silent);
    }
    match spelled(alloc, bytes, names) {
        Ok(command) => Ok(judge(command)),
        Err(ExprError::Syntax(column)) => Ok(Line::Refused(LineRefusal::Syntax(column))),
        Err(ExprError::TooDeep) => Ok(Line::Refused(LineRefusal::TooDeep)),
        Err(ExprError::NoMemory) => Err(AllocError),
        Err(ExprError::Nested) => Ok(Line::Refused(LineRefusal::Nested)),
        Err(ExprError::NoNode) => Ok(Line::Refused(LineRefusal::NoNode)),
    }
}

// The command that a line spells.
fn spelled(alloc: Global, bytes: &[u8], names: &[Bytes]) -> Result<DebuggerCommand, ExprError>
    requires few { length names.now < 2 ^ 32 }
    requires short { length bytes.now ≤ 4096 }
    ensures { SpellsCommand names.now bytes.now result }
{
    watch_expr::laws::exact_cut();
    let tokens = lex(alloc, bytes)?;
    read_command(alloc, &tokens, names)
}

/// Whether it is a line of blanks, or one whose first byte after blanks is `#`.
pub fn is_silent(bytes: &[u8]) -> bool
    ensures { result ≡ is_silent bytes.now }
{
    match front(bytes) {
        Some(first) => first == b'#',
        None => true,
    }
}

// The first byte after blanks.
fn front(bytes: &[u8]) -> Option<u8>
    ensures { result ≡ find (λ b. not (is_blank b)) bytes.now }
{
    bytes.iter().copied().find(|b| !is_blank(*b))
}

// What may be wrong with a command: an aggregate is in an aggregate, a name is that of no node, a point names a variable.
#[derive(Clone, Copy)]
struct CommandFaults {
    nested: bool,
    no_node: bool,
    variable: bool,
}

const NONE: CommandFaults = CommandFaults {
    nested: false,
    no_node: false,
    variable: false,
};

impl CommandFaults {
    // The faults of either.
    fn or(self, other: CommandFaults) -> CommandFaults
        ensures { result ≡ record {
          nested = self.nested || other.nested;
          no_node = self.no_node || other.no_node;
          variable = self.variable || other.variable;
        } }
    {
        CommandFaults {
            nested: self.nested || other.nested,
            no_node: self.no_node || other.no_node,
            variable: self.variable || other.variable,
        }
    }
}

// What may be wrong with an expression that is asked at a position to which no point has led.
fn expression_faults(expression: &Expr) -> CommandFaults
    ensures nested { result.nested ≡ is_nested (expression_of expression.now) }
    ensures no_node { result.no_node ≡ lacks_some_node (expression_of expression.now) }
    ensures variable { result.variable ≡ names_variable (expression_of expression.now) }
{
    let faults = find_faults(expression);
    CommandFaults {
        nested: faults.nested,
        no_node: faults.lacks_some_node(),
        variable: faults.variable,
    }
}

// What may be wrong with a condition, in which the node of the position's event may be named.
fn condition_faults(condition: &Option<Expr>) -> CommandFaults
    ensures nested { result.nested ≡ is_in_condition is_nested (condition_meant condition.now) }
    ensures no_node { result.no_node ≡ is_in_condition (lacks_node false) (condition_meant condition.now) }
    ensures variable { result.variable ≡ is_in_condition names_variable (condition_meant condition.now) }
{
    let Some(expression) = condition else {
        return NONE;
    };
    let faults = find_faults(expression);
    CommandFaults {
        nested: faults.nested,
        no_node: faults.no_node,
        variable: faults.variable,
    }
}

// Only that a node is none.
fn node_faults(no_node: bool) -> CommandFaults
    ensures { result ≡ record { nested = false; no_node = no_node; variable = false } }
{
    CommandFaults { no_node, ..NONE }
}

fn scopes_none(spelled: WhichNodes) -> bool
    ensures { result ≡ scopes_none (scope spelled) }
{
    match spelled {
        WhichNodes::Everywhere => false,
        WhichNodes::At(node) => node.is_none(),
    }
}

// What may be wrong with a command. Variables are refused in points only.
fn command_faults(spelled: &StayCommand) -> CommandFaults
    ensures nested { result.nested ≡ has_nested (stay_command spelled.now) }
    ensures no_node { result.no_node ≡ names_none (stay_command spelled.now) }
    ensures variable { result.variable ≡ watches_variable (stay_command spelled.now) }
{
    match spelled {
        StayCommand::Print(expression) => CommandFaults {
            variable: false,
            ..expression_faults(expression)
        },
        StayCommand::Set(_, expression) => CommandFaults {
            variable: false,
            ..expression_faults(expression)
        },
        StayCommand::Watch(expression, condition) => {
            expression_faults(expression).or(condition_faults(condition))
        }
        StayCommand::Break(scope, _, condition) => {
            node_faults(scopes_none(*scope)).or(condition_faults(condition))
        }
        StayCommand::Do(_, program) => {
            let faults = program_faults(program);
            CommandFaults {
                nested: faults.nested,
                no_node: faults.no_node,
                variable: false,
            }
        }
        StayCommand::Mem(node, ..) => node_faults(node.is_none()),
        StayCommand::Threads(node) => node_faults(node.is_none()),
        StayCommand::Frames(node, _) => node_faults(node.is_none()),
        _ => NONE,
    }
}

// A command of the grammar, unless something is wrong with it. With one that moves the group nothing is.
fn judge(spelled: DebuggerCommand) -> Line
    ensures { meaning result ≡ judged_command (command spelled) }
{
    match spelled {
        DebuggerCommand::Moves(_) => Line::Does(spelled),
        DebuggerCommand::Stays(command) => judge_stay(command),
    }
}

fn judge_stay(spelled: StayCommand) -> Line
    ensures { meaning result ≡ judged_command (stay_command spelled) }
{
    let faults = command_faults(&spelled);
    if faults.nested {
        Line::Refused(LineRefusal::Nested)
    } else if faults.no_node {
        Line::Refused(LineRefusal::NoNode)
    } else if faults.variable {
        Line::Refused(LineRefusal::NamesVariable)
    } else {
        Line::Does(DebuggerCommand::Stays(spelled))
    }
}

/// A line without its outer blanks.
pub fn trimmed(line: &[u8]) -> &[u8]
    ensures { result.now ≡ trimmed line.now }
{
    without_end_blanks(without_front_blanks(line))
}

// Bytes without the blanks in front.
fn without_front_blanks(bytes: &[u8]) -> &[u8]
    ensures { result.now ≡ without_front_blanks bytes.now }
{
    match bytes.iter().position(|b| !is_blank(*b)) {
        Some(first) => &bytes[first..],
        None => &[],
    }
}

// Bytes without the blanks at their end.
fn without_end_blanks(bytes: &[u8]) -> &[u8]
    ensures { result.now ≡ without_end_blanks bytes.now }
{
    match bytes.iter().rposition(|b| !is_blank(*b)) {
        Some(last) => &bytes[..=last],
        None => &[],
    }
}
