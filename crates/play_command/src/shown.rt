// The group of a play as it is.
ghost use Rattle.std.specs.Prelude.{◌≡◌, ◌<◌, ◌++◌, IfOk, codes, drop, if◌then◌else◌, option_map};
ghost use Rattle.lossy_net.specs.Network.{kept_sent};
ghost use Rattle.group_record.specs.Live.{live_count};
ghost use Rattle.group_text.specs.Texts.{process_lines};
ghost use Rattle.expression_text.specs.Expression.{expression_of};
ghost use Rattle.play_lines.specs.Lines.{Datagram, Mem, Print, Printed, Processes, Threads};
ghost use Rattle.play_command.specs.Play.{bytes_line, datagram_line};
ghost use Rattle.play_command.specs.inside.Playing.{IsUnderWay};
ghost use Rattle.play_command.specs.inside.Shown.{Shows, SumsUp, node_within};

use crate::seen::SeenGroup;
use fri_bytes::Bytes;
use fri_text::Text;
use group_record::{LiveGroup, SummaryLine};
use group_text::push_process_named;
use group_world::SentBytes;
use guest_process::Process;
use lib_calls::memory_part;
use point_programs::push_value;
use record_command::push_process_line;
use std::alloc::{AllocError, Global};
use watch_expr::{Expr, NoVariables, eval};

/// A line for each process, as `record` says of it.
pub(crate) fn show_processes(
    alloc: Global,
    live: &LiveGroup<'_>,
    names: &[Bytes],
) -> Result<Text, AllocError>
    requires { IsUnderWay names.now live.now }
    ensures { IfOk result (λ text. Shows names.now live.now Processes text) }
{
    let mut text = Text::new(alloc);
    for p in 0..live.count() {
        let line = summary_line(alloc, live, names[p as usize].as_slice(), p)?;
        push_process_line(alloc, &mut text, &line)?;
    }
    Ok(text)
}

// What is said of process `p`, which has this name.
fn summary_line(
    alloc: Global,
    live: &LiveGroup<'_>,
    name: &[u8],
    p: u32,
) -> Result<SummaryLine, AllocError>
    requires { p < live_count live.now }
    ensures { IfOk result (λ line. SumsUp live.now name.now p line) }
{
    group_record::laws::live_groups();
    let process = live.process(p);
    Ok(SummaryLine {
        name: Bytes::from_slice(alloc, name)?,
        events: process.events(),
        end: process.end(),
        killed: live.is_killed(p),
    })
}

// The number of a node that is there.
fn node_among(names: &[Bytes], node: Option<u32>) -> Option<u32>
    ensures { result ≡ node_within names.now node }
{
    let p = node?;
    if (p as usize) < names.len() {
        Some(p)
    } else {
        None
    }
}

/// How a process stands and its threads, or that it was killed.
pub(crate) fn show_threads(
    alloc: Global,
    live: &LiveGroup<'_>,
    names: &[Bytes],
    node: Option<u32>,
) -> Result<Text, AllocError>
    requires { IsUnderWay names.now live.now }
    ensures { IfOk result (λ text. Shows names.now live.now (Threads node) text) }
{
    let Some(p) = node_among(names, node) else {
        return Ok(Text::new(alloc));
    };
    let name = names[p as usize].as_slice();
    process_text(alloc, name, live.process(p), live.is_killed(p))
}

// How a process with this name stands and its threads, or that it was killed.
fn process_text(
    alloc: Global,
    name: &[u8],
    process: &Process<'_>,
    killed: bool,
) -> Result<Text, AllocError>
    ensures { IfOk result (λ text. text ≡ (if killed then name.now ++ codes " killed\n" else process_lines name.now process.now)) }
{
    let mut text = Text::new(alloc);
    if killed {
        text.push_bytes(name)?;
        text.push_str(" killed\n")?;
    } else {
        push_process_named(alloc, &mut text, name, process)?;
    }
    Ok(text)
}

/// For whom the nth datagram is that a process sent, from 1, and all its bytes.
pub(crate) fn show_datagram(
    alloc: Global,
    live: &LiveGroup<'_>,
    names: &[Bytes],
    sender: u32,
    number: u64,
) -> Result<Text, AllocError>
    requires { IsUnderWay names.now live.now }
    ensures { IfOk result (λ text. Shows names.now live.now (Datagram sender number) text) }
{
    let Some(p) = node_among(names, Some(sender)) else {
        return Ok(Text::new(alloc));
    };
    datagram_text(alloc, live.sent(p, number))
}

// For whom a datagram is, and all its bytes.
fn datagram_text(alloc: Global, sent: Option<SentBytes<'_>>) -> Result<Text, AllocError>
    ensures { IfOk result (λ text. text ≡ datagram_line (option_map kept_sent sent.entry)) }
{
    let mut text = Text::new(alloc);
    match sent {
        Some(sent) => {
            text.push_u64(u64::from(sent.to))?;
            text.push_str(" ")?;
            text.push_hex(alloc, sent.bytes)?;
            text.push_str("\n")?;
        }
        None => text.push_str("none\n")?,
    }
    Ok(text)
}

/// What a process printed, from this byte on.
pub(crate) fn show_printed(
    alloc: Global,
    live: &LiveGroup<'_>,
    names: &[Bytes],
    node: Option<u32>,
    from: u64,
) -> Result<Text, AllocError>
    requires { IsUnderWay names.now live.now }
    ensures { IfOk result (λ text. Shows names.now live.now (Printed node from) text) }
{
    let mut text = Text::new(alloc);
    let Some(p) = node_among(names, node) else {
        return Ok(text);
    };
    text.push_hex(alloc, bytes_from(live.printed(p), from))?;
    text.push_str("\n")?;
    Ok(text)
}

// The bytes from this one on.
fn bytes_from(bytes: &[u8], from: u64) -> &[u8]
    ensures { result.now ≡ drop from bytes.now }
{
    if from >= bytes.len() as u64 {
        return &[];
    }
    &bytes[from as usize..]
}

/// The value of an expression over the processes; all variables are undef.
pub(crate) fn show_value(
    alloc: Global,
    live: &LiveGroup<'_>,
    names: &[Bytes],
    expression: &Expr,
) -> Result<Text, AllocError>
    requires { IsUnderWay names.now live.now }
    ensures { IfOk result (λ text. Shows names.now live.now (Print (expression_of expression.now)) text) }
{
    group_record::laws::live_groups();
    let value = eval(expression, &SeenGroup { live }, &NoVariables);
    let mut text = Text::new(alloc);
    push_value(&mut text, value)?;
    text.push_str("\n")?;
    Ok(text)
}

/// A range of a process's memory.
pub(crate) fn show_memory(
    alloc: Global,
    live: &LiveGroup<'_>,
    names: &[Bytes],
    node: Option<u32>,
    addr: u64,
    len: u64,
) -> Result<Text, AllocError>
    requires { IsUnderWay names.now live.now }
    ensures { IfOk result (λ text. Shows names.now live.now (Mem node addr len) text) }
{
    group_record::laws::live_groups();
    let Some(p) = node_among(names, node) else {
        return Ok(Text::new(alloc));
    };
    let found = memory_part(alloc, live.process(p).memory(), addr, len)?;
    bytes_text(alloc, found)
}

// Some bytes, or that they are undef.
fn bytes_text(alloc: Global, found: Option<Bytes>) -> Result<Text, AllocError>
    ensures { IfOk result (λ text. text ≡ bytes_line found) }
{
    let mut text = Text::new(alloc);
    match found {
        Some(bytes) => text.push_hex(alloc, bytes.as_slice())?,
        None => text.push_str("undef")?,
    }
    text.push_str("\n")?;
    Ok(text)
}
