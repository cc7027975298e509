// What a line of a play is.
ghost use Rattle.std.specs.Prelude.{◌≡◌, ◌<◌, ◌≤◌, ◌^◌, IfOk, Ok, false, length, true};
ghost use Rattle.play_lines.specs.Lines.{lacks_in_play, nests_in_play};
ghost use Rattle.play_lines.specs.Meaning.{judged_play, play_meaning};
ghost use Rattle.play_lines.specs.Spelled.{play_line_meaning, player_command};
ghost use Rattle.play_lines.specs.inside.Reading.{SpellsPlay};
ghost use Rattle.play_lines.specs.declared.line.PlayLine.TheVariants.{Silent};
ghost use Rattle.shell_lines.specs.Meaning.{is_silent};

use crate::command::PlayerCommand;
use crate::refusal::PlayRefusal;
use crate::verbs::read_command;
use fri_bytes::Bytes;
use schedule_text::{Item, is_item_line, read_item_line};
use shell_lines::{LineRefusal, is_silent};
use std::alloc::{AllocError, Global};
use watch_expr::{ExprError, find_faults, lex};

// How many bytes a line has at most: enough for each item that a schedule of logs has.
const MOST_ITEM_LINE_BYTES: usize = 131_072;

// How many bytes a line has at most that is no item.
const MOST_LINE_BYTES: usize = 4096;

/// What a line is: nothing, a line that is refused, an item, or a command.
#[derive(Drop)]
pub enum PlayLine {
    Silent,
    Refused(PlayRefusal),
    Plays(Item),
    Does(PlayerCommand),
}

/// What a line is, over a group whose processes have these names.
pub fn read_play_line(alloc: Global, bytes: &[u8], names: &[Bytes]) -> Result<PlayLine, AllocError>
    requires some { 1 ≤ length names.now }
    requires few { length names.now < 2 ^ 32 }
    ensures line { IfOk result (λ line. play_line_meaning line ≡ play_meaning names.now bytes.now) }
    ensures silent { length bytes.now ≤ 131072 → is_silent bytes.now ≡ true → result ≡ Ok Silent }
{
    schedule_text::laws::exact_item_lines();
    if bytes.len() > MOST_ITEM_LINE_BYTES {
        return Ok(refuses(LineRefusal::TooLong));
    }
    if is_silent(bytes) {
        return Ok(PlayLine::Silent);
    }
    // Most lines are items, and whether one begins as an item does is only asked where it is none.
    if let Some(item) = read_item_line(alloc, bytes, names.len() as u32)? {
        return Ok(PlayLine::Plays(item));
    }
    if is_item_line(bytes) {
        return Ok(PlayLine::Refused(PlayRefusal::BadItem));
    }
    if bytes.len() > MOST_LINE_BYTES {
        return Ok(refuses(LineRefusal::TooLong));
    }
    match spelled(alloc, bytes, names) {
        Ok(command) => Ok(judge(command)),
        Err(ExprError::Syntax(column)) => Ok(refuses(LineRefusal::Syntax(column))),
        Err(ExprError::TooDeep) => Ok(refuses(LineRefusal::TooDeep)),
        Err(ExprError::Nested) => Ok(refuses(LineRefusal::Nested)),
        Err(ExprError::NoNode) => Ok(refuses(LineRefusal::NoNode)),
        Err(ExprError::NoMemory) => Err(AllocError),
    }
}

// A line that is refused as in the debugger.
fn refuses(why: LineRefusal) -> PlayLine
    ensures { result ≡ PlayLine.Refused (PlayRefusal.AsLine why) }
{
    PlayLine::Refused(PlayRefusal::AsLine(why))
}

// The command that a line spells. Apart, so that items pay nothing for what it needs.
#[inline(never)]
fn spelled(alloc: Global, bytes: &[u8], names: &[Bytes]) -> Result<PlayerCommand, ExprError>
    requires some { 1 ≤ length names.now }
    requires few { length names.now < 2 ^ 32 }
    requires short { length bytes.now ≤ 4096 }
    ensures { SpellsPlay names.now bytes.now result }
{
    watch_expr::laws::exact_cut();
    let tokens = lex(alloc, bytes)?;
    read_command(alloc, &tokens, names)
}

// What may be wrong with a command: an aggregate is in an aggregate, a name is that of no node.
#[derive(Clone, Copy)]
struct CommandFaults {
    nested: bool,
    no_node: bool,
}

// Only that a node is none.
fn node_faults(no_node: bool) -> CommandFaults
    ensures { result ≡ record { nested = false; no_node = no_node } }
{
    CommandFaults {
        nested: false,
        no_node,
    }
}

fn command_faults(spelled: &PlayerCommand) -> CommandFaults
    ensures nested { result.nested ≡ nests_in_play (player_command spelled.now) }
    ensures no_node { result.no_node ≡ lacks_in_play (player_command spelled.now) }
{
    match spelled {
        PlayerCommand::Print(expression) => {
            let faults = find_faults(expression);
            CommandFaults {
                nested: faults.nested,
                no_node: faults.lacks_some_node(),
            }
        }
        PlayerCommand::Threads(node) => node_faults(node.is_none()),
        PlayerCommand::Printed(node, _) => node_faults(node.is_none()),
        PlayerCommand::Mem(node, ..) => node_faults(node.is_none()),
        _ => node_faults(false),
    }
}

// A command of the grammar, unless something is wrong with it.
#[inline(never)]
fn judge(spelled: PlayerCommand) -> PlayLine
    ensures { play_line_meaning result ≡ judged_play (player_command spelled) }
{
    let faults = command_faults(&spelled);
    if faults.nested {
        refuses(LineRefusal::Nested)
    } else if faults.no_node {
        refuses(LineRefusal::NoNode)
    } else {
        PlayLine::Does(spelled)
    }
}
