// How many bytes an entry takes.
ghost use Rattle.std.specs.Prelude.{◌≡◌, ◌+◌, ◌^◌, ◌<◌, ◌≤◌, length};
ghost use Rattle.call_table.specs.Table.{row};
ghost use Rattle.lib_calls.specs.Entry.{IsStringIf, IsTagIf, entry_of, IsShaped};
ghost use Rattle.call_log.specs.Entry.{argument_bytes, encoding, number_if, string_if, tag_if};
ghost use Rattle.call_log.specs.Spelling.{IsLengthIf};
ghost use Rattle.call_log.specs.inside.Parts.{lead_bytes, length_if};

use crate::number::{length_clock, length_u16, length_u32, length_u64};
use crate::version::Version;
use lamport_tag::Tag;
use lib_calls::{Call, EntryView};

/// The number of bytes that an entry takes after one with the clock `last`.
#[tactic(auto, using(crate::proofs::EntrySizes::encoding_size))]
pub fn entry_length(version: Version, last: u64, entry: &EntryView<'_>) -> u64
    requires { IsShaped (entry_of entry.now) }
    ensures { result ≡ length (encoding version last (entry_of entry.now)) }
{
    let body = body_length(version, last, entry, entry.outgoing.len() as u32);
    length_u32(version, body) + u64::from(body)
}

// The number of bytes that its body takes, if so many bytes go out.
#[tactic(auto, using(crate::proofs::EntrySizes::lead_size))]
#[inline(always)]
pub(crate) fn body_length(version: Version, last: u64, entry: &EntryView<'_>, sent: u32) -> u32
    requires shape { IsShaped (entry_of entry.now) }
    requires sent { IsLengthIf (row entry.now.call.kind).entry.outgoing sent }
    ensures { result ≡ length (lead_bytes version last sent (entry_of entry.now)) + sent }
{
    let kind = entry.call.kind;
    let clock = length_clock(version, last, entry.clock);
    let thread = length_u16(version, entry.thread);
    let arguments = arguments_length(version, &entry.call);
    let reply = length_u64(version, entry.reply);
    let outgoing = length_length(version, kind.has_outgoing(), sent) + u64::from(sent);
    let incoming = string_length(version, kind.has_incoming(), entry.incoming);
    let tag = tag_length(version, kind.has_tag(), entry.tag);
    (clock + thread + 2 + arguments + reply + outgoing + incoming + tag) as u32
}

// How many bytes the arguments of a call take.
#[tactic(auto, unfolding(crate::specs::Entry::argument_bytes))]
#[inline(always)]
fn arguments_length(version: Version, call: &Call) -> u64
    ensures size { result ≡ length (argument_bytes version call.now) }
    ensures small { result ≤ 30 }
{
    let count = call.kind.argument_count();
    let first = number_length(version, 0 < count, call.a0);
    let second = number_length(version, 1 < count, call.a1);
    let third = number_length(version, 2 < count, call.a2);
    first + second + third
}

// How many bytes a number takes, where the kind has it.
#[inline(always)]
fn number_length(version: Version, has: bool, number: u64) -> u64
    ensures size { result ≡ length (number_if version has number) }
    ensures small { result ≤ 10 }
{
    if has { length_u64(version, number) } else { 0 }
}

// How many bytes the length of bytes takes, where the kind has them.
#[inline(always)]
fn length_length(version: Version, has: bool, count: u32) -> u64
    ensures size { result ≡ length (length_if version has count) }
    ensures small { result ≤ 10 }
{
    if has { length_u32(version, count) } else { 0 }
}

// How many bytes a byte string takes, with its length.
#[inline(always)]
fn string_length(version: Version, has: bool, bytes: &[u8]) -> u64
    requires { IsStringIf has bytes.now }
    ensures size { result ≡ length (string_if version has bytes.now) }
    ensures small { result < 2 ^ 32 }
{
    if has {
        length_u32(version, bytes.len() as u32) + bytes.len() as u64
    } else {
        0
    }
}

// How many bytes a tag takes, with its flag.
#[inline(always)]
pub(crate) fn tag_length(version: Version, has: bool, tag: Option<Tag>) -> u64
    requires { IsTagIf has tag }
    ensures size { result ≡ length (tag_if version has tag) }
    ensures small { result ≤ 21 }
{
    match tag {
        Some(tag) => 1 + length_u32(version, tag.sender) + length_u64(version, tag.clock),
        None => u64::from(has),
    }
}
