// Which answers the world can give.
ghost use Rattle.std.specs.Prelude.{◌≡◌};
ghost use Rattle.lib_calls.specs.Answer.{answer_of};
ghost use Rattle.lib_calls.specs.Entry.{entry_of};
ghost use Rattle.guest_process.specs.Answers.{brings_nothing, is_drawn, is_payload, takes_datagram};

use lamport_tag::{Tag, is_sendable, read_tag};
use lib_calls::{Call, EntryView};

/// Whether so many bytes came in as the call asks for, and no tag.
pub(crate) fn is_drawn(call: &Call, entry: &EntryView<'_>) -> bool
    ensures { result ≡ is_drawn call.now (answer_of (entry_of entry.now)) }
{
    entry.reply == call.a1 && (entry.incoming.len() as u64 == call.a1 && entry.tag.is_none())
}

/// Whether what came in is the payload of some datagram, cut to the bytes that the call has room for,
/// and its tag.
pub(crate) fn takes_datagram(count: u32, call: &Call, entry: &EntryView<'_>) -> bool
    ensures { result ≡ takes_datagram count call.now (answer_of (entry_of entry.now)) }
{
    let length = entry.incoming.len() as u64;
    (entry.reply == length && length <= call.a1) && is_payload(count, entry.tag, entry.incoming)
}

// Whether some datagram of a group of so many processes has this tag, or none, and this payload.
fn is_payload(count: u32, tag: Option<Tag>, payload: &[u8]) -> bool
    ensures { result ≡ is_payload count tag payload.now }
{
    match tag {
        Some(tag) => is_sendable(tag, count),
        None => read_tag(payload, count).is_none(),
    }
}

/// Whether the entry has no bytes that came in and no tag.
pub(crate) fn brings_nothing(entry: &EntryView<'_>) -> bool
    ensures { result ≡ brings_nothing entry.now.tag entry.now.incoming.now }
{
    match (entry.tag, entry.incoming) {
        (None, []) => true,
        _ => false,
    }
}
