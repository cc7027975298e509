// Which command the tokens of a line spell: the verb first, and what follows each verb.
ghost use Rattle.std.specs.Prelude.{◌≡◌, ◌<◌, ◌^◌, length};
ghost use Rattle.shell_lines.specs.Lines.{command_of_verb, command_spelled, continue_in, token_at, verb_of};
ghost use Rattle.shell_lines.specs.declared.command.Verb.TheVariants as verb;
ghost use Rattle.shell_lines.specs.Reads.{ReadsAs};
ghost use Rattle.shell_lines.specs.inside.Reading.{ReadsCommand};
ghost use Rattle.expression_text.specs.Lexing.{token_texts};

use crate::command::DebuggerCommand::{Moves, Stays};
use crate::command::{DebuggerCommand, MoveCommand, StayCommand, Verb};
use crate::read::{
    ending, read_calls, read_condition, read_count, read_expression, read_front_expression,
    read_node, read_number, read_scope, read_variable,
};
use fri_bytes::Bytes;
use point_programs::parse_program;
use std::alloc::Global;
use watch_expr::{ExprError, MOST_NUMBER, Tokens};

// How many bytes of a memory one line shows at most.
const MOST_SHOWN_BYTES: u64 = 256;

// The greatest number of a thread.
const GREATEST_THREAD: u64 = 63;

// How many events one line shows at most.
const MOST_SHOWN_EVENTS: u64 = 1000;

const VERBS: [Verb; 18] = [
    Verb::Goto,
    Verb::Step,
    Verb::Back,
    Verb::Print,
    Verb::Mem,
    Verb::Threads,
    Verb::Frames,
    Verb::Events,
    Verb::Watch,
    Verb::Break,
    Verb::Delete,
    Verb::Do,
    Verb::List,
    Verb::Set,
    Verb::Vars,
    Verb::Continue,
    Verb::Rcontinue,
    Verb::Quit,
];

impl Verb {
    ghost use Rattle.shell_lines.specs.Lines.{verb_word};

    fn word(self) -> &'static str
        ensures { result.now ≡ verb_word self }
    {
        match self {
            Verb::Goto => "goto",
            Verb::Step => "step",
            Verb::Back => "back",
            Verb::Print => "print",
            Verb::Mem => "mem",
            Verb::Threads => "threads",
            Verb::Frames => "frames",
            Verb::Events => "events",
            Verb::Watch => "watch",
            Verb::Break => "break",
            Verb::Delete => "delete",
            Verb::Do => "do",
            Verb::List => "list",
            Verb::Set => "set",
            Verb::Vars => "vars",
            Verb::Continue => "continue",
            Verb::Rcontinue => "rcontinue",
            Verb::Quit => "quit",
        }
    }
}

/// The command that the tokens spell, over a group whose processes have these names, or the column of the first token
/// that no command could have there.
pub(crate) fn read_command(
    alloc: Global,
    tokens: &Tokens<'_>,
    names: &[Bytes],
) -> Result<DebuggerCommand, ExprError>
    requires { length names.now < 2 ^ 32 }
    ensures { ReadsCommand tokens.now (command_spelled names.now (token_texts tokens.now)) result }
{
    let verb = read_verb(tokens)?;
    read_behind(alloc, verb, tokens, names)
}

// The command of this verb.
fn read_behind(
    alloc: Global,
    verb: Verb,
    tokens: &Tokens<'_>,
    names: &[Bytes],
) -> Result<DebuggerCommand, ExprError>
    requires { length names.now < 2 ^ 32 }
    ensures { ReadsCommand tokens.now (command_of_verb names.now (token_texts tokens.now) verb) result }
{
    match verb {
        Verb::Goto => {
            let position = read_number(tokens, 1, 0, MOST_NUMBER)?;
            ending(tokens, 2, Moves(MoveCommand::Goto(position)))
        }
        Verb::Step => {
            let count = read_count(tokens, 0, MOST_NUMBER, 1)?;
            ending(tokens, 2, Moves(MoveCommand::Step(count)))
        }
        Verb::Back => {
            let count = read_count(tokens, 0, MOST_NUMBER, 1)?;
            ending(tokens, 2, Moves(MoveCommand::Back(count)))
        }
        Verb::Print => Ok(Stays(StayCommand::Print(read_expression(alloc, tokens, 1, names)?))),
        Verb::Mem => read_mem(tokens, names),
        Verb::Threads => {
            let node = read_node(tokens, 1, names)?;
            ending(tokens, 2, Stays(StayCommand::Threads(node)))
        }
        Verb::Frames => read_frames(tokens, names),
        Verb::Events => {
            let count = read_count(tokens, 1, MOST_SHOWN_EVENTS, 10)?;
            ending(tokens, 2, Moves(MoveCommand::Events(count)))
        }
        Verb::Watch => read_watch(alloc, tokens, names),
        Verb::Break => read_break(alloc, tokens, names),
        Verb::Delete => {
            let number = read_number(tokens, 1, 0, MOST_NUMBER)?;
            ending(tokens, 2, Stays(StayCommand::Delete(number)))
        }
        Verb::Do => read_do(alloc, tokens, names),
        Verb::List => ending(tokens, 1, Stays(StayCommand::List)),
        Verb::Set => read_set(alloc, tokens, names),
        Verb::Vars => ending(tokens, 1, Stays(StayCommand::Vars)),
        Verb::Continue => read_continue(tokens),
        Verb::Rcontinue => ending(tokens, 1, Moves(MoveCommand::Rcontinue)),
        Verb::Quit => ending(tokens, 1, Stays(StayCommand::Quit)),
    }
}

// A node, an address and a length.
fn read_mem(tokens: &Tokens<'_>, names: &[Bytes]) -> Result<DebuggerCommand, ExprError>
    requires { length names.now < 2 ^ 32 }
    ensures { ReadsCommand tokens.now (command_of_verb names.now (token_texts tokens.now) verb.Mem) result }
{
    let node = read_node(tokens, 1, names)?;
    let addr = read_number(tokens, 2, 0, MOST_NUMBER)?;
    let len = read_number(tokens, 3, 1, MOST_SHOWN_BYTES)?;
    ending(tokens, 4, Stays(StayCommand::Mem(node, addr, len)))
}

// A node and a thread.
fn read_frames(tokens: &Tokens<'_>, names: &[Bytes]) -> Result<DebuggerCommand, ExprError>
    requires { length names.now < 2 ^ 32 }
    ensures { ReadsCommand tokens.now (command_of_verb names.now (token_texts tokens.now) verb.Frames) result }
{
    let node = read_node(tokens, 1, names)?;
    let thread = read_number(tokens, 2, 0, GREATEST_THREAD)?;
    ending(tokens, 3, Stays(StayCommand::Frames(node, thread)))
}

// An expression, and a condition that may be left out.
fn read_watch(
    alloc: Global,
    tokens: &Tokens<'_>,
    names: &[Bytes],
) -> Result<DebuggerCommand, ExprError>
    requires { length names.now < 2 ^ 32 }
    ensures { ReadsCommand tokens.now (command_of_verb names.now (token_texts tokens.now) verb.Watch) result }
{
    let (expression, next) = read_front_expression(alloc, tokens, 1, names)?;
    let condition = read_condition(alloc, tokens, next, names)?;
    Ok(Stays(StayCommand::Watch(expression, condition)))
}

// A count that may be left out, which then is not bounded.
fn read_continue(tokens: &Tokens<'_>) -> Result<DebuggerCommand, ExprError>
    ensures { ReadsCommand tokens.now (continue_in (token_texts tokens.now)) result }
{
    if tokens.count() <= 1 {
        return Ok(Moves(MoveCommand::Continue(None)));
    }
    let most = read_number(tokens, 1, 1, MOST_NUMBER)?;
    ending(tokens, 2, Moves(MoveCommand::Continue(Some(most))))
}

// Which nodes, the kind of call, and a condition that may be left out.
fn read_break(
    alloc: Global,
    tokens: &Tokens<'_>,
    names: &[Bytes],
) -> Result<DebuggerCommand, ExprError>
    requires { length names.now < 2 ^ 32 }
    ensures { ReadsCommand tokens.now (command_of_verb names.now (token_texts tokens.now) verb.Break) result }
{
    let place = read_scope(tokens, 1, names)?;
    let kind = read_calls(tokens, 2)?;
    let condition = read_condition(alloc, tokens, 3, names)?;
    Ok(Stays(StayCommand::Break(place, kind, condition)))
}

// The number of a point, and a program.
fn read_do(
    alloc: Global,
    tokens: &Tokens<'_>,
    names: &[Bytes],
) -> Result<DebuggerCommand, ExprError>
    requires { length names.now < 2 ^ 32 }
    ensures { ReadsCommand tokens.now (command_of_verb names.now (token_texts tokens.now) verb.Do) result }
{
    let number = read_number(tokens, 1, 0, MOST_NUMBER)?;
    let program = parse_program(alloc, tokens, 2, names)?;
    Ok(Stays(StayCommand::Do(number, program)))
}

// A variable, and an expression.
fn read_set(
    alloc: Global,
    tokens: &Tokens<'_>,
    names: &[Bytes],
) -> Result<DebuggerCommand, ExprError>
    requires { length names.now < 2 ^ 32 }
    ensures { ReadsCommand tokens.now (command_of_verb names.now (token_texts tokens.now) verb.Set) result }
{
    let name = read_variable(alloc, tokens, 1)?;
    let value = read_expression(alloc, tokens, 3, names)?;
    Ok(Stays(StayCommand::Set(name, value)))
}

// The verb in front.
fn read_verb(tokens: &Tokens<'_>) -> Result<Verb, ExprError>
    ensures { ReadsAs (λ v. v) tokens.now (token_at verb_of (token_texts tokens.now) 0) result }
{
    let verb = tokens.text(0).and_then(named_verb);
    verb.ok_or(ExprError::Syntax(tokens.column(0)))
}

// The verb with this word.
#[tactic(auto, unfolding(crate::specs::Lines::verb_of))]
fn named_verb(text: &[u8]) -> Option<Verb>
    ensures { result ≡ verb_of text.now }
{
    VERBS
        .iter()
        .copied()
        .find(|verb| verb.word().as_bytes() == text)
}
