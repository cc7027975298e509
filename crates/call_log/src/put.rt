// Writing the head and the entries of a log.
ghost use Rattle.std.specs.Prelude.{◌≡◌, ◌^◌, ◌<◌, ◌≤◌, ◌++◌, ◌&&◌, nat_lt, length, map, take, IsTrue, Some, OnOk, OnErr};
ghost use Rattle.std.specs.List.{concat};
ghost use Rattle.call_table.specs.Table.{row};
ghost use Rattle.lib_calls.specs.Entry.{IsStringIf, IsTagIf, entry_of, IsShaped};
ghost use Rattle.call_log.specs.Entry.{argument_bytes, encoding, flagged_tag, number_if, string_if, tag_if};
ghost use Rattle.call_log.specs.Spelling.{AddsBeforeOutgoing, IsLengthIf};
ghost use Rattle.call_log.specs.inside.Parts.{framed_lead, front_bytes, is_bare, lead_bytes, length_if, reply_bytes};
ghost use Rattle.call_log.specs.declared.version.Version.TheVariants.{Two};
ghost use Rattle.call_log.specs.Version.{clock_gap};
ghost use Rattle.call_log.specs.Head.{IsHead, head_bytes, head_of};

use crate::head::{LogHead, MAGIC};
use crate::length::body_length;
use crate::number::{put_clock, put_number_u16, put_number_u32, put_number_u64};
use crate::version::Version;
use fri_bytes::{put_byte, put_bytes};
use lamport_tag::Tag;
use lib_calls::{Call, EntryView};
use std::alloc::AllocError;

/// Adds the head of a log.
#[tactic(auto, unfolding(crate::specs::Head::head_bytes))]
pub fn put_head(out: &mut Vec<u8>, head: &LogHead<'_>) -> Result<(), AllocError>
    requires { IsHead (head_of head.now) }
    ensures ok { OnOk result (out.new.items ≡ out.old.items ++ head_bytes (head_of head.now)) }
    ensures err { OnErr result (out.new.items ≡ out.old.items) }
{
    put_pieces(
        out,
        &[
            MAGIC,
            &head.version.number().to_le_bytes(),
            &head.count.to_le_bytes(),
            &head.process.to_le_bytes(),
            &[head.name.len() as u8],
            head.name,
        ],
    )
}

/// Adds an entry after one with the clock `last`.
#[inline(always)]
pub fn put_entry(
    out: &mut Vec<u8>,
    version: Version,
    last: u64,
    entry: &EntryView<'_>,
) -> Result<(), AllocError>
    requires { IsShaped (entry_of entry.now) }
    ensures ok { OnOk result (out.new.items ≡ out.old.items ++ encoding version last (entry_of entry.now)) }
    ensures err { OnErr result (out.new.items ≡ out.old.items) }
{
    let start = out.len();
    put_framed(out, version, last, entry, entry.outgoing.len() as u32)?;
    if let Err(error) = put_bytes(out, entry.outgoing) {
        out.truncate(start);
        return Err(error);
    }
    Ok(())
}

/// Adds an entry after one with the clock `last`, but for its outgoing bytes, which come last. There are to be `sent` of
/// them, whatever the entry has.
#[inline(always)]
pub fn put_before_outgoing(
    out: &mut Vec<u8>,
    version: Version,
    last: u64,
    entry: &EntryView<'_>,
    sent: u32,
) -> Result<(), AllocError>
    requires shape { IsShaped (entry_of entry.now) }
    requires sent { IsLengthIf (row entry.now.call.kind).entry.outgoing sent }
    ensures ok { OnOk result (AddsBeforeOutgoing version last sent (entry_of entry.now) out.old.items out.new.items) }
    ensures err { OnErr result (out.new.items ≡ out.old.items) }
{
    put_framed(out, version, last, entry, sent)
}

// The same, as the bytes that are added.
#[inline(always)]
fn put_framed(
    out: &mut Vec<u8>,
    version: Version,
    last: u64,
    entry: &EntryView<'_>,
    sent: u32,
) -> Result<(), AllocError>
    requires shape { IsShaped (entry_of entry.now) }
    requires sent { IsLengthIf (row entry.now.call.kind).entry.outgoing sent }
    ensures ok { OnOk result (out.new.items ≡ out.old.items ++ framed_lead version last sent (entry_of entry.now)) }
    ensures err { OnErr result (out.new.items ≡ out.old.items) }
{
    match version {
        Version::Two if is_bare(last, entry) => put_bare(out, last, entry, sent),
        Version::Two if sent < 64 && entry.incoming.len() < 64 => put_small(out, last, entry, sent),
        _ => put_measured(out, version, last, entry, sent),
    }
}

// Whether the entry has one argument and neither bytes nor a tag, and each number but the argument takes one byte in
// version 2.
#[inline(always)]
fn is_bare(last: u64, entry: &EntryView<'_>) -> bool
    ensures { result ≡ is_bare last (entry_of entry.now) }
{
    let kind = entry.call.kind;
    kind.argument_count() == 1
        && (!kind.has_outgoing()
            && (!kind.has_incoming()
                && (!kind.has_tag()
                    && (entry.clock.wrapping_sub(last) < 128
                        && (entry.thread < 128 && entry.reply < 128)))))
}

// Adds such an entry. If its argument takes at most three bytes, all bytes of the entry are added at once.
#[inline(always)]
fn put_bare(
    out: &mut Vec<u8>,
    last: u64,
    entry: &EntryView<'_>,
    sent: u32,
) -> Result<(), AllocError>
    requires bare { IsTrue (is_bare last (entry_of entry.now)) }
    requires shape { IsShaped (entry_of entry.now) }
    requires sent { IsLengthIf (row entry.now.call.kind).entry.outgoing sent }
    ensures ok { OnOk result (out.new.items ≡ out.old.items ++ framed_lead Two last sent (entry_of entry.now)) }
    ensures err { OnErr result (out.new.items ≡ out.old.items) }
{
    let gap = entry.clock.wrapping_sub(last) as u8;
    let thread = entry.thread as u8;
    let kind = entry.call.kind.number();
    let argument = entry.call.a0;
    let reply = entry.reply as u8;
    if argument < 128 {
        let argument = argument as u8;
        return put_bytes(out, &[6, gap, thread, kind, entry.signal, argument, reply]);
    }
    let low = 128 + (argument % 128) as u8;
    let high = argument / 128;
    if high < 128 {
        let high = high as u8;
        return put_bytes(out, &[7, gap, thread, kind, entry.signal, low, high, reply]);
    }
    let middle = 128 + (high % 128) as u8;
    let high = high / 128;
    if high < 128 {
        let high = high as u8;
        return put_bytes(
            out,
            &[8, gap, thread, kind, entry.signal, low, middle, high, reply],
        );
    }
    put_small(out, last, entry, sent)
}

// Adds an entry of version 2 but for its outgoing bytes. The length of its body most likely takes one byte, which is put
// in once the body comes after it, so that no field is measured first.
#[inline(always)]
fn put_small(
    out: &mut Vec<u8>,
    last: u64,
    entry: &EntryView<'_>,
    sent: u32,
) -> Result<(), AllocError>
    requires shape { IsShaped (entry_of entry.now) }
    requires sent { IsLengthIf (row entry.now.call.kind).entry.outgoing sent }
    ensures ok { OnOk result (out.new.items ≡ out.old.items ++ framed_lead Two last sent (entry_of entry.now)) }
    ensures err { OnErr result (out.new.items ≡ out.old.items) }
{
    let start = out.len();
    put_byte(out, 0)?;
    if let Err(error) = put_lead(out, Version::Two, last, entry, sent) {
        out.truncate(start);
        return Err(error);
    }
    let size = (out.len() - start - 1) as u64 + u64::from(sent);
    if size < 128 {
        out[start] = size as u8;
        return Ok(());
    }
    out.truncate(start);
    put_measured(out, Version::Two, last, entry, sent)
}

// Adds an entry but for its outgoing bytes. Its body is measured first.
fn put_measured(
    out: &mut Vec<u8>,
    version: Version,
    last: u64,
    entry: &EntryView<'_>,
    sent: u32,
) -> Result<(), AllocError>
    requires shape { IsShaped (entry_of entry.now) }
    requires sent { IsLengthIf (row entry.now.call.kind).entry.outgoing sent }
    ensures ok { OnOk result (out.new.items ≡ out.old.items ++ framed_lead version last sent (entry_of entry.now)) }
    ensures err { OnErr result (out.new.items ≡ out.old.items) }
{
    let start = out.len();
    put_number_u32(out, version, body_length(version, last, entry, sent))?;
    if let Err(error) = put_lead(out, version, last, entry, sent) {
        out.truncate(start);
        return Err(error);
    }
    Ok(())
}

// Adds the fields of an entry but for its outgoing bytes, or some of them where memory runs out.
#[inline(always)]
fn put_lead(
    out: &mut Vec<u8>,
    version: Version,
    last: u64,
    entry: &EntryView<'_>,
    sent: u32,
) -> Result<(), AllocError>
    requires { IsShaped (entry_of entry.now) }
    ensures ok { OnOk result (out.new.items ≡ out.old.items ++ lead_bytes version last sent (entry_of entry.now)) }
    ensures err { OnErr result (take (length out.old.items) out.new.items ≡ out.old.items) }
{
    put_front(out, version, last, entry)?;
    put_arguments(out, version, &entry.call)?;
    put_reply(out, version, entry, sent)?;
    put_tag_if(out, version, entry.call.kind.has_tag(), entry.tag)
}

// Adds the fields before the arguments, or some of them where memory runs out.
#[inline(always)]
fn put_front(
    out: &mut Vec<u8>,
    version: Version,
    last: u64,
    entry: &EntryView<'_>,
) -> Result<(), AllocError>
    ensures ok { OnOk result (out.new.items ≡ out.old.items ++ front_bytes version last (entry_of entry.now)) }
    ensures err { OnErr result (take (length out.old.items) out.new.items ≡ out.old.items) }
{
    match version {
        Version::Two if is_short(last, entry) => put_short_front(out, last, entry),
        _ => put_any_front(out, version, last, entry),
    }
}

// Whether the clock and the thread take one byte each in version 2.
#[inline(always)]
fn is_short(last: u64, entry: &EntryView<'_>) -> bool
    ensures { result ≡ (nat_lt (clock_gap last entry.now.clock) 128 && nat_lt entry.now.thread 128) }
{
    entry.clock.wrapping_sub(last) < 128 && entry.thread < 128
}

// The same of version 2, where the clock and the thread take one byte each: most often they do.
#[tactic(auto, unfolding(crate::specs::inside::Parts::front_bytes, fri_bytes::specs::Short::short_bytes))]
#[inline(always)]
fn put_short_front(out: &mut Vec<u8>, last: u64, entry: &EntryView<'_>) -> Result<(), AllocError>
    requires gap { clock_gap last entry.now.clock < 128 }
    requires thread { entry.now.thread < 128 }
    ensures ok { OnOk result (out.new.items ≡ out.old.items ++ front_bytes Two last (entry_of entry.now)) }
    ensures err { OnErr result (out.new.items ≡ out.old.items) }
{
    let gap = entry.clock.wrapping_sub(last);
    put_bytes(
        out,
        &[
            gap as u8,
            entry.thread as u8,
            entry.call.kind.number(),
            entry.signal,
        ],
    )
}

// The same of any entry.
#[tactic(auto, unfolding(crate::specs::inside::Parts::front_bytes))]
#[inline(always)]
fn put_any_front(
    out: &mut Vec<u8>,
    version: Version,
    last: u64,
    entry: &EntryView<'_>,
) -> Result<(), AllocError>
    ensures ok { OnOk result (out.new.items ≡ out.old.items ++ front_bytes version last (entry_of entry.now)) }
    ensures err { OnErr result (take (length out.old.items) out.new.items ≡ out.old.items) }
{
    put_clock(out, version, last, entry.clock)?;
    put_number_u16(out, version, entry.thread)?;
    put_bytes(out, &[entry.call.kind.number(), entry.signal])
}

// Adds the arguments that the call has, or some of them where memory runs out.
#[tactic(auto, unfolding(crate::specs::Entry::argument_bytes))]
#[inline(always)]
fn put_arguments(out: &mut Vec<u8>, version: Version, call: &Call) -> Result<(), AllocError>
    ensures ok { OnOk result (out.new.items ≡ out.old.items ++ argument_bytes version call.now) }
    ensures err { OnErr result (take (length out.old.items) out.new.items ≡ out.old.items) }
{
    let count = call.kind.argument_count();
    put_number_if(out, version, 0 < count, call.a0)?;
    put_number_if(out, version, 1 < count, call.a1)?;
    put_number_if(out, version, 2 < count, call.a2)
}

// Adds a number, where the kind has it.
#[inline(always)]
fn put_number_if(
    out: &mut Vec<u8>,
    version: Version,
    has: bool,
    number: u64,
) -> Result<(), AllocError>
    ensures ok { OnOk result (out.new.items ≡ out.old.items ++ number_if version has number) }
    ensures err { OnErr result (out.new.items ≡ out.old.items) }
{
    if has {
        put_number_u64(out, version, number)
    } else {
        Ok(())
    }
}

// Adds the reply, how many bytes are to go out, and the bytes that came in, or a part of that where memory runs out.
#[tactic(auto, unfolding(crate::specs::inside::Parts::reply_bytes))]
#[inline(always)]
fn put_reply(
    out: &mut Vec<u8>,
    version: Version,
    entry: &EntryView<'_>,
    sent: u32,
) -> Result<(), AllocError>
    requires { IsShaped (entry_of entry.now) }
    ensures ok { OnOk result (out.new.items ≡ out.old.items ++ reply_bytes version sent (entry_of entry.now)) }
    ensures err { OnErr result (take (length out.old.items) out.new.items ≡ out.old.items) }
{
    let kind = entry.call.kind;
    put_number_u64(out, version, entry.reply)?;
    put_length_if(out, version, kind.has_outgoing(), sent)?;
    put_string_if(out, version, kind.has_incoming(), entry.incoming)
}

// Adds the length of bytes, where the kind has them.
#[inline(always)]
fn put_length_if(
    out: &mut Vec<u8>,
    version: Version,
    has: bool,
    length: u32,
) -> Result<(), AllocError>
    ensures ok { OnOk result (out.new.items ≡ out.old.items ++ length_if version has length) }
    ensures err { OnErr result (out.new.items ≡ out.old.items) }
{
    if has {
        put_number_u32(out, version, length)
    } else {
        Ok(())
    }
}

// Adds bytes after their length, or the length alone where memory runs out, where the kind has them.
#[inline(always)]
fn put_string_if(
    out: &mut Vec<u8>,
    version: Version,
    has: bool,
    bytes: &[u8],
) -> Result<(), AllocError>
    requires { IsStringIf has bytes.now }
    ensures ok { OnOk result (out.new.items ≡ out.old.items ++ string_if version has bytes.now) }
    ensures err { OnErr result (take (length out.old.items) out.new.items ≡ out.old.items) }
{
    if has {
        put_number_u32(out, version, bytes.len() as u32)?;
        put_bytes(out, bytes)?;
    }
    Ok(())
}

// Adds a tag after its flag or the flag that there is none, where there may be a tag, or some of that where
// memory runs out.
#[inline(always)]
fn put_tag_if(
    out: &mut Vec<u8>,
    version: Version,
    has: bool,
    tag: Option<Tag>,
) -> Result<(), AllocError>
    requires { IsTagIf has tag }
    ensures ok { OnOk result (out.new.items ≡ out.old.items ++ tag_if version has tag) }
    ensures err { OnErr result (take (length out.old.items) out.new.items ≡ out.old.items) }
{
    match tag {
        Some(tag) => put_tag(out, version, tag),
        None if has => put_byte(out, 0),
        None => Ok(()),
    }
}

// Adds a tag after the flag that there is one, or some of that where memory runs out.
#[inline(always)]
fn put_tag(out: &mut Vec<u8>, version: Version, tag: Tag) -> Result<(), AllocError>
    ensures ok { OnOk result (out.new.items ≡ out.old.items ++ flagged_tag version (Some tag)) }
    ensures err { OnErr result (take (length out.old.items) out.new.items ≡ out.old.items) }
{
    put_byte(out, 1)?;
    put_number_u32(out, version, tag.sender)?;
    put_number_u64(out, version, tag.clock)
}

// Adds the pieces, one after the other.
fn put_pieces(out: &mut Vec<u8>, pieces: &[&[u8]]) -> Result<(), AllocError>
    ensures ok { OnOk result (out.new.items ≡ out.old.items ++ concat (map (λ piece. piece.now) pieces.now)) }
    ensures err { OnErr result (out.new.items ≡ out.old.items) }
{
    let start = out.len();
    for piece in pieces {
        if let Err(error) = put_bytes(out, piece) {
            out.truncate(start);
            return Err(error);
        }
    }
    Ok(())
}
