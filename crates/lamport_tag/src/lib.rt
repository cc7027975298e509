//! The tag of a datagram: who sent it, and its Lamport clock; and the rule by which clocks go on.
//!
//! A datagram is a tag of 16 bytes and a payload, or a payload alone. `read_tag` finds a tag exactly where the bytes begin
//! with one that a process of the group can have sent (`IsTagged`, `IsUntagged` and `tag_at` of `specs/Tag`), and
//! `write_tag` gives its bytes. The clock of an event is one more than the greater of the clock before it and of that which
//! its datagram brought (`next_clock_of`). The law `tags_read_back` says that a tag is found again in front of what follows
//! it, and `cut_short` that a datagram without a tag has none after its end is cut off. Nothing here takes memory.
#![tactic(auto)]

ghost use Rattle.std.specs.Prelude.{◌≡◌, ◌^◌, ◌<◌, ◌==◌, max, IfSome, IfNone, option_map};
ghost use Rattle.lamport_tag.specs.Tag.{IsTagged, IsUntagged, clock_of, next_clock_of, is_sendable as is_sendable_of, tag_at, tag_bytes};

pub mod laws;

use byteorder::{ByteOrder, LittleEndian};

const MAGIC: [u8; 4] = [0xD7, b'L', b'O', b'G'];

// The length of a tag in bytes.
const TAG_LENGTH: usize = 16;

/// How many processes a group may have.
pub const MOST_PROCESSES: usize = 16;

// The greatest clock that a tag can bear.
const MOST_CLOCK: u64 = 1 << 62;

/// Who sent a datagram: the process's number, and the clock of its send.
#[derive(Clone, Copy, PartialEq, Eq)]
pub struct Tag {
    pub sender: u32,
    pub clock: u64,
}

/// The clock of a process's next event. `last` is the clock of its previous event, or 0 where there
/// was none, and `tag` is that of the datagram which the event takes, where it takes a tagged one
/// (Lamport, "Time, Clocks, and the Ordering of Events in a Distributed System", 1978).
pub fn next_clock(last: u64, tag: Option<Tag>) -> u64
    requires last_fits { last < 2 ^ 63 }
    requires tag_fits { clock_of tag < 2 ^ 63 }
    ensures value { result ≡ next_clock_of last tag }
    ensures after_last { last < result }
    ensures after_send { clock_of tag < result }
{
    clock_before(last, tag) + 1
}

/// Whether this is the clock of a process's next event. It is not added to, so that a clock without a
/// next one is no fault.
pub fn is_next_clock(last: u64, tag: Option<Tag>, clock: u64) -> bool
    ensures { result ≡ (clock == next_clock_of last tag) }
{
    let before = clock_before(last, tag);
    clock > before && clock - 1 == before
}

// The greater of the clocks that come before an event.
fn clock_before(last: u64, tag: Option<Tag>) -> u64
    ensures { result ≡ max last (clock_of tag) }
{
    last.max(tag.map_or(0, |tag| tag.clock))
}

/// The tag of a datagram in a group of `count` processes, and the payload after it. Bytes that only
/// look like a tag, as those that name a sender outside the group, are payload.
pub fn read_tag(bytes: &[u8], count: u32) -> Option<(Tag, &[u8])>
    ensures tagged { IfSome result (λ r. IsTagged count bytes.now r.0 r.1.now) }
    ensures untagged { IfNone result (IsUntagged count bytes.now) }
    ensures value { option_map (λ r. (r.0, r.1.now)) result ≡ tag_at count bytes.now }
{
    if bytes.len() < TAG_LENGTH || !bytes.starts_with(&MAGIC) {
        return None;
    }
    let tag = Tag {
        sender: LittleEndian::read_u32(&bytes[4..]),
        clock: LittleEndian::read_u64(&bytes[8..]),
    };
    if !is_sendable(tag, count) {
        return None;
    }
    Some((tag, &bytes[TAG_LENGTH..]))
}

/// The bytes of a tag.
#[tactic(auto, unfolding(crate::specs::Tag::tag_bytes))]
pub fn write_tag(tag: Tag) -> [u8; 16]
    ensures { result ≡ tag_bytes tag }
{
    let mut bytes = [0; TAG_LENGTH];
    bytes[..4].copy_from_slice(&MAGIC);
    LittleEndian::write_u32(&mut bytes[4..], tag.sender);
    LittleEndian::write_u64(&mut bytes[8..], tag.clock);
    bytes
}

/// Whether a process of a group of `count` can have sent the tag.
pub fn is_sendable(tag: Tag, count: u32) -> bool
    ensures { result ≡ is_sendable_of count tag }
{
    tag.sender < count && 1 <= tag.clock && tag.clock <= MOST_CLOCK
}
