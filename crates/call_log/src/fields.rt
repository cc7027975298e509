// Reading the kind of an entry, and the fields that not every kind has.
ghost use Rattle.std.specs.Prelude.{option_map};
ghost use Rattle.call_log.specs.inside.Parts.{GivesField};
ghost use Rattle.call_log.specs.Reading.{call_at, flagged_tag_at, kind_byte_at, number_if_at, string_at, string_if_at, tag_fields_at, tag_if_at};

use crate::number::{read_u32, read_u64};
use crate::version::Version;
use fri_bytes::Cursor;
use lamport_tag::Tag;
use lib_calls::{Call, Kind};

// The kind of a call, which one byte has by its number.
#[tactic(auto, unfolding(crate::specs::Reading::kind_byte_at))]
#[inline(always)]
pub(crate) fn read_kind(cursor: &mut Cursor<'_>) -> Option<Kind>
    ensures { GivesField result cursor.new (kind_byte_at cursor.old.left) }
{
    Kind::from_number(cursor.byte()?)
}

// A call of the kind, with the arguments that it has.
#[tactic(auto, unfolding(crate::specs::Reading::call_at))]
#[inline(always)]
pub(crate) fn read_call(cursor: &mut Cursor<'_>, version: Version, kind: Kind) -> Option<Call>
    ensures { GivesField result cursor.new (call_at version kind cursor.old.left) }
{
    let count = kind.argument_count();
    let a0 = read_number_if(cursor, version, 0 < count)?;
    let a1 = read_number_if(cursor, version, 1 < count)?;
    let a2 = read_number_if(cursor, version, 2 < count)?;
    Some(Call { kind, a0, a1, a2 })
}

// A number, where there is one, else 0.
#[inline(always)]
fn read_number_if(cursor: &mut Cursor<'_>, version: Version, has: bool) -> Option<u64>
    ensures { GivesField result cursor.new (number_if_at version has cursor.old.left) }
{
    if has {
        read_u64(cursor, version)
    } else {
        Some(0)
    }
}

// Bytes after their length, where there are some, else none.
#[inline(always)]
pub(crate) fn read_string_if<'a>(
    cursor: &mut Cursor<'a>,
    version: Version,
    has: bool,
) -> Option<&'a [u8]>
    ensures { GivesField (option_map (λ x. x.now) result) cursor.new (string_if_at version has cursor.old.left) }
{
    if has {
        read_string(cursor, version)
    } else {
        Some(&[])
    }
}

// Bytes after their length, which are shorter than 2 GiB.
#[tactic(auto, unfolding(crate::specs::Reading::string_at))]
#[inline(always)]
fn read_string<'a>(cursor: &mut Cursor<'a>, version: Version) -> Option<&'a [u8]>
    ensures { GivesField (option_map (λ x. x.now) result) cursor.new (string_at version cursor.old.left) }
{
    let size = read_u32(cursor, version)?;
    if size >= 1 << 31 {
        return None;
    }
    cursor.take(size as usize)
}

// The tag of a datagram or none, where the entry says which, else none.
#[inline(always)]
pub(crate) fn read_tag_if(
    cursor: &mut Cursor<'_>,
    version: Version,
    has: bool,
) -> Option<Option<Tag>>
    ensures { GivesField result cursor.new (tag_if_at version has cursor.old.left) }
{
    if has {
        read_flagged(cursor, version)
    } else {
        Some(None)
    }
}

// A tag after its flag, or the flag that there is none.
#[tactic(auto, unfolding(crate::specs::Reading::flagged_tag_at))]
#[inline(always)]
fn read_flagged(cursor: &mut Cursor<'_>, version: Version) -> Option<Option<Tag>>
    ensures { GivesField result cursor.new (flagged_tag_at version cursor.old.left) }
{
    match cursor.byte()? {
        0 => Some(None),
        1 => Some(Some(read_tag(cursor, version)?)),
        _ => None,
    }
}

// The sender and the clock of a tag.
#[tactic(auto, unfolding(crate::specs::Reading::tag_fields_at))]
#[inline(always)]
fn read_tag(cursor: &mut Cursor<'_>, version: Version) -> Option<Tag>
    ensures { GivesField result cursor.new (tag_fields_at version cursor.old.left) }
{
    let sender = read_u32(cursor, version)?;
    let clock = read_u64(cursor, version)?;
    Some(Tag { sender, clock })
}
