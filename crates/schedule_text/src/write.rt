// Writing a schedule.
ghost use Rattle.std.specs.Prelude.{◌≡◌, ◌∷◌, [], ◌++◌, decimal, flat_map, IfOk, OnOk};
ghost use Rattle.std.specs.List.{join_with_byte};
ghost use Rattle.fri_text.specs.Hex.{hex_word};
ghost use Rattle.schedule_text.specs.Text.{head_text, item_fields, item_text, process_text, text_of, times_fields};

use crate::item::Item;
use crate::process::ProcessLine;
use crate::schedule::Schedule;
use fri_text::Text;
use std::alloc::{AllocError, Global};

/// The text of the schedule: the header, the processes and the items, a line each, with one space
/// between two fields. Numbers have no zeros in front, and a single try has no number. Bytes are written
/// in lower-case digits, and no bytes by `-`.
pub fn write_schedule(alloc: Global, schedule: &Schedule) -> Result<Vec<u8>, AllocError>
    ensures { IfOk result (λ text. text.items ≡ text_of schedule.now) }
{
    let mut text = Text::new(alloc);
    push_head(&mut text, schedule.processes())?;
    push_items(alloc, &mut text, schedule.items())?;
    Ok(text.into_vec())
}

/// Adds the lines of a schedule before its items: the header, and a line for each process. After want of memory
/// a part of them may be at the end of the text.
pub fn push_head(text: &mut Text, processes: &[ProcessLine]) -> Result<(), AllocError>
    ensures { OnOk result (text.new ≡ text.old ++ head_text processes.now) }
{
    text.push_str("friday 1\n")?;
    push_processes(text, processes)
}

fn push_processes(text: &mut Text, processes: &[ProcessLine]) -> Result<(), AllocError>
    ensures { OnOk result (text.new ≡ text.old ++ flat_map process_text processes.now) }
{
    for line in processes {
        push_process(text, line)?;
    }
    Ok(())
}

fn push_process(text: &mut Text, line: &ProcessLine) -> Result<(), AllocError>
    ensures { OnOk result (text.new ≡ text.old ++ process_text line.now) }
{
    text.push_str("process ")?;
    text.push_bytes(line.name.as_slice())?;
    text.push_str(" ")?;
    text.push_bytes(line.module.as_slice())?;
    text.push_str("\n")
}

fn push_items(alloc: Global, text: &mut Text, items: &[Item]) -> Result<(), AllocError>
    ensures { OnOk result (text.new ≡ text.old ++ flat_map item_text items.now) }
{
    for item in items {
        push_item(alloc, text, item)?;
    }
    Ok(())
}

/// Adds the line of an item. After want of memory a part of it may be at the end of the text.
pub fn push_item(alloc: Global, text: &mut Text, item: &Item) -> Result<(), AllocError>
    ensures { OnOk result (text.new ≡ text.old ++ item_text item.now) }
{
    push_fields(alloc, text, item)?;
    text.push_str("\n")
}

/// Adds the line of the item without its line feed.
fn push_fields(alloc: Global, text: &mut Text, item: &Item) -> Result<(), AllocError>
    ensures { OnOk result (text.new ≡ text.old ++ join_with_byte 32 (item_fields item.now)) }
{
    match item {
        Item::Run {
            process,
            thread,
            times,
        } => {
            push_word(text, "run", *process)?;
            push_number(text, u64::from(*thread))?;
            push_times(text, *times)
        }
        Item::Deliver { process, number } => {
            push_word(text, "deliver", *process)?;
            push_number(text, *number)
        }
        Item::Inject { process, bytes } => {
            push_word(text, "inject", *process)?;
            push_bytes(alloc, text, bytes.as_slice())
        }
        Item::Clock { process, value } => {
            push_word(text, "clock", *process)?;
            text.push_str(" ")?;
            text.push_i64(*value)
        }
        Item::Random { process, bytes } => {
            push_word(text, "random", *process)?;
            push_bytes(alloc, text, bytes.as_slice())
        }
        Item::Signal { process, signal } => {
            push_word(text, "signal", *process)?;
            push_number(text, u64::from(*signal))
        }
        Item::Kill { process } => push_word(text, "kill", *process),
    }
}

/// Adds the first word of an item and its process.
fn push_word(text: &mut Text, word: &str, process: u32) -> Result<(), AllocError>
    ensures { OnOk result (text.new ≡ text.old ++ (word.now ++ 32 ∷ decimal process)) }
{
    text.push_str(word)?;
    push_number(text, u64::from(process))
}

/// Adds the tries of a run item, where they aren't a single one.
fn push_times(text: &mut Text, times: u32) -> Result<(), AllocError>
    ensures { OnOk result (text.new ≡ text.old ++ flat_map (λ field. 32 ∷ field) (times_fields times)) }
{
    if times == 1 {
        return Ok(());
    }
    push_number(text, u64::from(times))
}

/// Adds a space and the number.
fn push_number(text: &mut Text, number: u64) -> Result<(), AllocError>
    ensures { OnOk result (text.new ≡ text.old ++ 32 ∷ decimal number) }
{
    text.push_str(" ")?;
    text.push_u64(number)
}

/// Adds a space and the bytes in digits.
fn push_bytes(alloc: Global, text: &mut Text, bytes: &[u8]) -> Result<(), AllocError>
    ensures { OnOk result (text.new ≡ text.old ++ 32 ∷ hex_word bytes.now) }
{
    text.push_str(" ")?;
    text.push_hex(alloc, bytes)
}
