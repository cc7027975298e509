// The bytes of an entry where they stand in what was spelled.
ghost use Rattle.std.specs.Prelude.{◌≡◌};
ghost use Rattle.lib_calls.specs.Entry.{entry_of};
ghost use Rattle.call_log.specs.Spelling.{EndsWithEntry};

use crate::length::tag_length;
use crate::version::Version;
use lib_calls::EntryView;

/// The incoming bytes of an entry with which these bytes end, as a piece of them. What the entry sends out is not looked at.
#[inline(always)]
pub fn incoming_in<'a>(bytes: &'a [u8], version: Version, entry: &EntryView<'_>) -> &'a [u8]
    requires { EndsWithEntry version (entry_of entry.now) bytes.now }
    ensures { result.now ≡ entry.now.incoming.now }
{
    let kind = entry.call.kind;
    if !kind.has_incoming() {
        return &[];
    }
    let end = bytes.len() - tag_length(version, kind.has_tag(), entry.tag) as usize;
    &bytes[end - entry.incoming.len()..end]
}
