// Prints what is said of streams.
ghost use Rattle.std.specs.Prelude.{◌≡◌, ◌++◌, decimal, IfOk, List, OnOk};
ghost use Rattle.byte_streams.specs.Traffic.{SendOrReceive};
ghost use Rattle.streams_command.specs.inside.Meanings.{IsToldOf};
ghost use Rattle.streams_command.specs.Streams.{stream_counts_text, stream_line_text, streams_text};

use crate::telling::Told;
use byte_streams::StreamLine;
use fri_text::Text;
use std::alloc::{AllocError, Global};

// A number, and what follows it.
fn push_number(text: &mut Text, number: u64, behind: &str) -> Result<(), AllocError>
    ensures { OnOk result (text.new ≡ text.old ++ (decimal number ++ behind.now)) }
{
    text.push_u64(number)?;
    text.push_str(behind)
}

fn push_line(text: &mut Text, line: StreamLine) -> Result<(), AllocError>
    ensures { OnOk result (text.new ≡ text.old ++ stream_line_text line) }
{
    push_number(text, u64::from(line.from), " -> ")?;
    push_number(text, u64::from(line.to), " stream ")?;
    push_number(text, u64::from(line.stream), ": ")?;
    push_number(text, line.written, " written, ")?;
    push_number(text, line.read, " read\n")
}

fn push_counts(text: &mut Text, streams: u64, odd: u64, foreign: u64) -> Result<(), AllocError>
    ensures { OnOk result (text.new ≡ text.old ++ stream_counts_text streams odd foreign) }
{
    text.push_str("streams: ")?;
    push_number(text, streams, ", ")?;
    push_number(text, odd, " odd, ")?;
    push_number(text, foreign, " foreign\n")
}

/// A line for each stream, and one for all.
pub(crate) fn print(alloc: Global, told: &Told) -> Result<Text, AllocError>
    ensures { IfOk result (λ text. (traffic : List SendOrReceive) → IsToldOf told.now traffic → text ≡ streams_text traffic) }
{
    let mut text = Text::new(alloc);
    let lines = told.streams.lines(alloc)?;
    for line in &lines {
        push_line(&mut text, *line)?;
    }
    push_counts(&mut text, lines.len() as u64, told.odd, told.foreign)?;
    Ok(text)
}
