// Which command the tokens of a line spell: the verb first, and what follows each verb.
ghost use Rattle.std.specs.Prelude.{◌≡◌, ◌<◌, ◌≤◌, ◌^◌, length};
ghost use Rattle.play_lines.specs.Lines.{play_of_verb, ends_after, play_spelled, play_verb_of};
ghost use Rattle.play_lines.specs.Spelled.{player_command};
ghost use Rattle.play_lines.specs.inside.Reading.{ReadsPlay};
ghost use Rattle.shell_lines.specs.Lines.{token_at};
ghost use Rattle.shell_lines.specs.Reads.{ReadsAs};
ghost use Rattle.expression_text.specs.Lexing.{token_texts};

use crate::command::{PlayVerb, PlayerCommand};
use fri_bytes::Bytes;
use shell_lines::{read_expression, read_node, read_number};
use std::alloc::Global;
use watch_expr::{ExprError, MOST_NUMBER, Tokens};

// How many bytes of a memory one line shows at most.
const MOST_SHOWN_BYTES: u64 = 256;

const VERBS: [PlayVerb; 8] = [
    PlayVerb::Processes,
    PlayVerb::Threads,
    PlayVerb::Datagram,
    PlayVerb::Printed,
    PlayVerb::Print,
    PlayVerb::Mem,
    PlayVerb::Again,
    PlayVerb::Quit,
];

impl PlayVerb {
    ghost use Rattle.play_lines.specs.Lines.{play_verb_word};

    fn word(self) -> &'static str
        ensures { result.now ≡ play_verb_word self }
    {
        match self {
            PlayVerb::Processes => "processes",
            PlayVerb::Threads => "threads",
            PlayVerb::Datagram => "datagram",
            PlayVerb::Printed => "printed",
            PlayVerb::Print => "print",
            PlayVerb::Mem => "mem",
            PlayVerb::Again => "again",
            PlayVerb::Quit => "quit",
        }
    }
}

/// The command that the tokens spell, over a group whose processes have these names, or the column of the first token
/// that no command could have there.
pub(crate) fn read_command(
    alloc: Global,
    tokens: &Tokens<'_>,
    names: &[Bytes],
) -> Result<PlayerCommand, ExprError>
    requires some { 1 ≤ length names.now }
    requires few { length names.now < 2 ^ 32 }
    ensures { ReadsPlay tokens.now (play_spelled names.now (token_texts tokens.now)) result }
{
    let verb = read_verb(tokens)?;
    read_behind(alloc, verb, tokens, names)
}

// The command of this verb.
fn read_behind(
    alloc: Global,
    verb: PlayVerb,
    tokens: &Tokens<'_>,
    names: &[Bytes],
) -> Result<PlayerCommand, ExprError>
    requires some { 1 ≤ length names.now }
    requires few { length names.now < 2 ^ 32 }
    ensures { ReadsPlay tokens.now (play_of_verb names.now (token_texts tokens.now) verb) result }
{
    match verb {
        PlayVerb::Processes => ending(tokens, 1, PlayerCommand::Processes),
        PlayVerb::Threads => {
            let node = read_node(tokens, 1, names)?;
            ending(tokens, 2, PlayerCommand::Threads(node))
        }
        PlayVerb::Datagram => {
            let sender = read_number(tokens, 1, 0, (names.len() - 1) as u64)?;
            let number = read_number(tokens, 2, 1, MOST_NUMBER)?;
            ending(tokens, 3, PlayerCommand::Datagram(sender as u32, number))
        }
        PlayVerb::Printed => {
            let node = read_node(tokens, 1, names)?;
            let from = read_number(tokens, 2, 0, MOST_NUMBER)?;
            ending(tokens, 3, PlayerCommand::Printed(node, from))
        }
        PlayVerb::Print => Ok(PlayerCommand::Print(read_expression(alloc, tokens, 1, names)?)),
        PlayVerb::Mem => {
            let node = read_node(tokens, 1, names)?;
            let addr = read_number(tokens, 2, 0, MOST_NUMBER)?;
            let len = read_number(tokens, 3, 1, MOST_SHOWN_BYTES)?;
            ending(tokens, 4, PlayerCommand::Mem(node, addr, len))
        }
        PlayVerb::Again => ending(tokens, 1, PlayerCommand::Again),
        PlayVerb::Quit => ending(tokens, 1, PlayerCommand::Quit),
    }
}

// The command, where there are no more than so many tokens.
fn ending(tokens: &Tokens<'_>, n: usize, spelled: PlayerCommand) -> Result<PlayerCommand, ExprError>
    ensures { ReadsPlay tokens.now (ends_after (token_texts tokens.now) n (player_command spelled)) result }
{
    if tokens.count() <= n {
        Ok(spelled)
    } else {
        Err(ExprError::Syntax(tokens.column(n)))
    }
}

// The verb in front.
fn read_verb(tokens: &Tokens<'_>) -> Result<PlayVerb, ExprError>
    ensures { ReadsAs (λ v. v) tokens.now (token_at play_verb_of (token_texts tokens.now) 0) result }
{
    let verb = tokens.text(0).and_then(named_verb);
    verb.ok_or(ExprError::Syntax(tokens.column(0)))
}

// The verb with this word.
#[tactic(auto, unfolding(crate::specs::Lines::play_verb_of))]
fn named_verb(text: &[u8]) -> Option<PlayVerb>
    ensures { result ≡ play_verb_of text.now }
{
    VERBS
        .iter()
        .copied()
        .find(|verb| verb.word().as_bytes() == text)
}
