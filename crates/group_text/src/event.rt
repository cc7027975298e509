// How events, positions and threads are shown.
ghost use Rattle.std.specs.Prelude.{◌≡◌, ◌++◌, OnOk, decimal, true};
ghost use Rattle.lib_calls.specs.Entry.{entry_of};
ghost use Rattle.guest_process.specs.State.{is_running, thread_at};
ghost use Rattle.group_state.specs.Moves.{event_of};
ghost use Rattle.group_text.specs.Texts.{arguments_text, call_text, event_line, event_text, named_event_text, node_name, position_line, process_lines, reply_text, signal_text, signed_text, stamp_text, standing_text, thread_lines, threads_text};

use fri_text::Text;
use group_state::{Group, GroupEvent};
use guest_process::{End, Process, push_end};
use lib_calls::{Call, EntryView, Signature};
use std::alloc::{AllocError, Global};

// A number of 64 bits, or of the lowest 32, signed.
fn push_signed(text: &mut Text, wide: bool, number: u64) -> Result<(), AllocError>
    ensures { OnOk result (text.new ≡ text.old ++ signed_text wide number) }
{
    if wide {
        text.push_i64(number.cast_signed())
    } else {
        let low = (number & 0xffff_ffff) as u32;
        text.push_i64(i64::from(low.cast_signed()))
    }
}

// The arguments that a call has.
fn push_arguments(text: &mut Text, signature: Signature, call: &Call) -> Result<(), AllocError>
    ensures { OnOk result (text.new ≡ text.old ++ arguments_text signature call.now) }
{
    let arguments = [call.a0, call.a1, call.a2];
    for argument in arguments.iter().take(signature.params as usize) {
        text.push_str(" ")?;
        push_signed(text, signature.wide_param, *argument)?;
    }
    Ok(())
}

// The name of a call, and its arguments.
fn push_call(text: &mut Text, call: &Call) -> Result<(), AllocError>
    ensures { OnOk result (text.new ≡ text.old ++ call_text call.now) }
{
    text.push_str(call.kind.name())?;
    push_arguments(text, call.kind.signature(), call)
}

// The reply of a call that has a result.
fn push_reply(text: &mut Text, entry: &EntryView<'_>) -> Result<(), AllocError>
    ensures { OnOk result (text.new ≡ text.old ++ reply_text (entry_of entry.now)) }
{
    match entry.call.kind.signature().result {
        0 => Ok(()),
        bits => {
            text.push_str(" = ")?;
            push_signed(text, bits == 64, entry.reply)
        }
    }
}

// The signal that was delivered, where one was.
fn push_signal(text: &mut Text, signal: u8) -> Result<(), AllocError>
    ensures { OnOk result (text.new ≡ text.old ++ signal_text signal) }
{
    if signal == 0 {
        return Ok(());
    }
    text.push_str(" ! ")?;
    text.push_u64(u64::from(signal))
}

// The name of a node's process.
fn name_of<'a>(group: &Group<'_, 'a>, node: u32) -> &'a [u8]
    ensures { result.now ≡ node_name group.now.start node }
{
    match group.node_name(node) {
        Some(name) => name,
        None => b"",
    }
}

// When an event was made, and by whom.
fn push_stamp(text: &mut Text, name: &[u8], entry: &EntryView<'_>) -> Result<(), AllocError>
    ensures { OnOk result (text.new ≡ text.old ++ stamp_text name.now (entry_of entry.now)) }
{
    text.push_u64(entry.clock)?;
    text.push_str(" ")?;
    text.push_bytes(name)?;
    text.push_str(" ")?;
    text.push_u64(u64::from(entry.thread))
}

/// An event of the process with this name. After want of memory a part of it may be at the end of the text.
pub fn push_event_of(text: &mut Text, name: &[u8], entry: &EntryView<'_>) -> Result<(), AllocError>
    ensures { OnOk result (text.new ≡ text.old ++ named_event_text name.now (entry_of entry.now)) }
{
    push_stamp(text, name, entry)?;
    text.push_str(" ")?;
    push_call(text, &entry.call)?;
    push_reply(text, entry)?;
    push_signal(text, entry.signal)
}

// An event of the group.
fn push_event(
    text: &mut Text,
    group: &Group<'_, '_>,
    event: &GroupEvent<'_>,
) -> Result<(), AllocError>
    ensures { OnOk result (text.new ≡ text.old ++ event_text group.now.start (event_of event.now)) }
{
    push_event_of(text, name_of(group, event.node), &event.entry)
}

/// An event with its position. After want of memory a part of it may be at the end of the text.
pub fn push_event_line(
    text: &mut Text,
    group: &Group<'_, '_>,
    position: u64,
    event: &GroupEvent<'_>,
) -> Result<(), AllocError>
    ensures { OnOk result (text.new ≡ text.old ++ event_line group.now.start position (event_of event.now)) }
{
    text.push_u64(position)?;
    text.push_str(": ")?;
    push_event(text, group, event)?;
    text.push_str("\n")
}

/// The position of a group, and the event that led there. After want of memory a part of it may be at the end of
/// the text.
pub fn push_position(text: &mut Text, group: &Group<'_, '_>) -> Result<(), AllocError>
    ensures { OnOk result (text.new ≡ text.old ++ position_line group.now) }
{
    text.push_str("at ")?;
    text.push_u64(group.position())?;
    if let Some(event) = group.last_event() {
        text.push_str(": ")?;
        push_event(text, group, &event)?;
    }
    text.push_str("\n")
}

// How a thread of a process that runs stands.
fn push_thread(text: &mut Text, process: &Process<'_>, t: u16) -> Result<(), AllocError>
    requires { is_running process.now ≡ true }
    ensures { OnOk result (text.new ≡ text.old ++ (decimal t ++ standing_text (thread_at process.now t))) }
{
    text.push_u64(u64::from(t))?;
    match process.pending(t) {
        Some(call) => {
            text.push_str(" at ")?;
            push_call(text, call)?;
            text.push_str("\n")
        }
        None => text.push_str(" ended\n"),
    }
}

// How each thread of a process stands.
fn push_threads(text: &mut Text, process: &Process<'_>) -> Result<(), AllocError>
    ensures { OnOk result (text.new ≡ text.old ++ threads_text process.now) }
{
    match process.end() {
        End::Running => push_lines(text, process),
        End::Finished => Ok(()),
        End::Exited(_) => Ok(()),
        End::Trapped(_) => Ok(()),
    }
}

// A line for each thread of a process that runs.
fn push_lines(text: &mut Text, process: &Process<'_>) -> Result<(), AllocError>
    requires { is_running process.now ≡ true }
    ensures { OnOk result (text.new ≡ text.old ++ thread_lines 0 process.now.crew.threads) }
{
    for t in 0..process.threads() {
        push_thread(text, process, t)?;
    }
    Ok(())
}

/// How the process of a node stands, and where it runs each of its threads. After want of memory a part of it may
/// stand at the end of the text.
pub fn push_process(
    alloc: Global,
    text: &mut Text,
    group: &Group<'_, '_>,
    node: u32,
    process: &Process<'_>,
) -> Result<(), AllocError>
    ensures { OnOk result (text.new ≡ text.old ++ process_lines (node_name group.now.start node) process.now) }
{
    push_process_named(alloc, text, name_of(group, node), process)
}

/// How a process with this name stands, and where it runs each of its threads. After want of memory a part of it may
/// stand at the end of the text.
pub fn push_process_named(
    alloc: Global,
    text: &mut Text,
    name: &[u8],
    process: &Process<'_>,
) -> Result<(), AllocError>
    ensures { OnOk result (text.new ≡ text.old ++ process_lines name.now process.now) }
{
    text.push_bytes(name)?;
    text.push_str(" ")?;
    push_end(alloc, text, process.end())?;
    text.push_str("\n")?;
    push_threads(text, process)
}
