// What is printed of the drill.
ghost use Rattle.std.specs.Prelude.{◌≡◌, ◌++◌, List, IfOk, OnOk};
ghost use Rattle.proc_replay.specs.Replaying.{Replaying};
ghost use Rattle.drill_command.specs.Drill.{drill_text, number_line};
ghost use Rattle.drill_command.specs.inside.Results.{IsWatchedDrill};

use crate::watching::Watched;
use fri_text::Text;
use point_programs::push_value;
use std::alloc::{AllocError, Global};

fn push_line(text: &mut Text, word: &str, number: u64) -> Result<(), AllocError>
    ensures { OnOk result (text.new ≡ text.old ++ number_line word.now number) }
{
    text.push_str(word)?;
    text.push_u64(number)?;
    text.push_str("\n")
}

/// The five lines.
pub(crate) fn print(
    alloc: Global,
    rounds: u32,
    idle: u64,
    watched: &Watched,
) -> Result<Text, AllocError>
    ensures { IfOk result (λ text. (start : List Replaying) → IsWatchedDrill start watched.now → text ≡ drill_text rounds idle start) }
{
    let mut text = Text::new(alloc);
    push_line(&mut text, "drill ", u64::from(rounds))?;
    push_line(&mut text, "events ", watched.events)?;
    push_line(&mut text, "idle ", idle)?;
    push_line(&mut text, "firings ", watched.firings)?;
    text.push_str("last ")?;
    push_value(&mut text, watched.last)?;
    text.push_str("\n")?;
    Ok(text)
}
