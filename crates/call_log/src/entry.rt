// Reading an entry of a log.
ghost use Rattle.std.specs.Prelude.{◌≡◌, ◌++◌, IfSome, IfNone, option_map};
ghost use Rattle.lib_calls.specs.Entry.{IsShaped, entry_of};
ghost use Rattle.call_log.specs.Entry.{BeginsNoEntry, encoding};
ghost use Rattle.call_log.specs.Reading.{body_at, read_entry as entry_read};

use crate::fields::{read_call, read_kind, read_string_if, read_tag_if};
use crate::number::{read_clock, read_u16, read_u32, read_u64};
use crate::version::Version;
use fri_bytes::Cursor;
use lib_calls::EntryView;

// The entry at the front of the bytes, which follow an entry with the clock `last`, and the bytes after it.
pub(crate) fn read_entry(
    bytes: &[u8],
    version: Version,
    last: u64,
) -> Option<(EntryView<'_>, &[u8])>
    ensures shaped { IfSome result (λ r. IsShaped (entry_of r.0)) }
    ensures spelled { IfSome result (λ r. bytes.now ≡ encoding version last (entry_of r.0) ++ r.1.now) }
    ensures none { IfNone result (BeginsNoEntry version last bytes.now) }
{
    fri_bytes::laws::exact_readers();
    match version {
        Version::One => read_framed(bytes, Version::One, last),
        Version::Two => read_framed(bytes, Version::Two, last),
    }
}

// The same as `read_entry`. It is compiled for each version apart, so that no number is asked for its version.
#[tactic(auto, unfolding(crate::specs::Reading::read_entry))]
#[inline(always)]
fn read_framed(bytes: &[u8], version: Version, last: u64) -> Option<(EntryView<'_>, &[u8])>
    ensures { option_map (λ r. (entry_of r.0, r.1.now)) result ≡ entry_read version last bytes.now }
{
    let mut cursor = Cursor::new(bytes);
    let size = read_u32(&mut cursor, version)?;
    let body = cursor.take(size as usize)?;
    let entry = read_body(body, version, last)?;
    Some((entry, cursor.rest()))
}

// The entry that is all of the bytes.
#[tactic(auto, unfolding(crate::specs::Reading::body_at))]
#[inline(always)]
fn read_body(body: &[u8], version: Version, last: u64) -> Option<EntryView<'_>>
    ensures { option_map entry_of result ≡ body_at version last body.now }
{
    let mut cursor = Cursor::new(body);
    let clock = read_clock(&mut cursor, version, last)?;
    let thread = read_u16(&mut cursor, version)?;
    let kind = read_kind(&mut cursor)?;
    let signal = cursor.byte()?;
    let call = read_call(&mut cursor, version, kind)?;
    let reply = read_u64(&mut cursor, version)?;
    let outgoing = read_string_if(&mut cursor, version, kind.has_outgoing())?;
    let incoming = read_string_if(&mut cursor, version, kind.has_incoming())?;
    let tag = read_tag_if(&mut cursor, version, kind.has_tag())?;
    if !cursor.rest().is_empty() {
        return None;
    }
    Some(EntryView {
        clock,
        thread,
        signal,
        call,
        reply,
        outgoing,
        incoming,
        tag,
    })
}
