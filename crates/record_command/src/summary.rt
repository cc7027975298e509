// What is printed of a recording.
ghost use Rattle.std.specs.Prelude.{◌≡◌, ◌++◌, IfOk, OnOk};
ghost use Rattle.record_command.specs.Record.{process_line, items_line, state_text, summary_text};

use fri_text::Text;
use group_record::{Summary, SummaryLine};
use guest_process::push_end;
use std::alloc::{AllocError, Global};

/// The line of a process. After want of memory a part of it may be at the end of the text.
pub fn push_process_line(
    alloc: Global,
    text: &mut Text,
    line: &SummaryLine,
) -> Result<(), AllocError>
    ensures { OnOk result (text.new ≡ text.old ++ process_line line.now) }
{
    text.push_bytes(line.name.as_slice())?;
    text.push_str(": ")?;
    text.push_u64(line.events)?;
    text.push_str(" events, ")?;
    push_state(alloc, text, line)?;
    text.push_str("\n")?;
    Ok(())
}

// How a process stands, and that it was killed where it was.
fn push_state(alloc: Global, text: &mut Text, line: &SummaryLine) -> Result<(), AllocError>
    ensures { OnOk result (text.new ≡ text.old ++ state_text line.now.killed line.now.end) }
{
    if line.killed {
        text.push_str("killed")
    } else {
        push_end(alloc, text, line.end)
    }
}

/// The line of the counts of what acted and of what was idle. After want of memory a part of it may be at the end of the text.
pub fn push_items_line(text: &mut Text, acted: u64, idle: u64) -> Result<(), AllocError>
    ensures { OnOk result (text.new ≡ text.old ++ items_line acted idle) }
{
    text.push_str("items: ")?;
    text.push_u64(acted)?;
    text.push_str(" acted, ")?;
    text.push_u64(idle)?;
    text.push_str(" idle\n")?;
    Ok(())
}

/// The lines of the processes, and the line of the items.
pub fn print_summary(alloc: Global, summary: &Summary) -> Result<Text, AllocError>
    ensures { IfOk result (λ text. text ≡ summary_text summary.now.lines.items summary.now.acted summary.now.idle) }
{
    let mut text = Text::new(alloc);
    for line in &summary.lines {
        push_process_line(alloc, &mut text, line)?;
    }
    push_items_line(&mut text, summary.acted, summary.idle)?;
    Ok(text)
}
