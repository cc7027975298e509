// The head of a log.
ghost use Rattle.std.specs.Prelude.{◌≡◌, ◌++◌, IfSome, IfNone, option_map};
ghost use Rattle.call_log.specs.Head.{BeginsNoHead, IsHead, head_bytes, head_of};
ghost use Rattle.call_log.specs.inside.Parts.{GivesField};
ghost use Rattle.call_log.specs.Reading.{name_at, read_head as head_read};

use crate::version::Version;
use fri_bytes::Cursor;
use fri_text::is_name;
use lamport_tag::MOST_PROCESSES;
use thiserror::Error;

// The bytes that a log begins with.
pub(crate) const MAGIC: &[u8] = b"LLOG";

/// The head of a log: the version of its format, the number of processes in the group, the process's number and its name.
#[derive(Clone, Copy)]
pub struct LogHead<'a> {
    pub version: Version,
    pub count: u32,
    pub process: u32,
    pub name: &'a [u8],
}

/// The bytes do not begin with the head of a log.
#[derive(Clone, Copy, Debug, Error)]
#[error("the bytes do not begin with the head of a log")]
pub struct BadHead;

// The head at the front of the bytes, and the bytes after it.
pub(crate) fn read_head(bytes: &[u8]) -> Option<(LogHead<'_>, &[u8])>
    ensures head { IfSome result (λ r. IsHead (head_of r.0)) }
    ensures spelled { IfSome result (λ r. bytes.now ≡ head_bytes (head_of r.0) ++ r.1.now) }
    ensures none { IfNone result (BeginsNoHead bytes.now) }
{
    fri_bytes::laws::exact_readers();
    let mut cursor = Cursor::new(bytes);
    let head = read_fields(&mut cursor)?;
    Some((head, cursor.rest()))
}

// The fields of a head, one after the other.
#[tactic(auto, unfolding(crate::specs::Reading::read_head))]
fn read_fields<'a>(cursor: &mut Cursor<'a>) -> Option<LogHead<'a>>
    ensures { GivesField (option_map head_of result) cursor.new (head_read cursor.old.left) }
{
    if cursor.take(MAGIC.len())? != MAGIC {
        return None;
    }
    let version = Version::from_number(cursor.u32_le()?)?;
    let count = cursor.u32_le()?;
    let process = cursor.u32_le()?;
    let name = read_name(cursor)?;
    if 1 <= count && count as usize <= MOST_PROCESSES && process < count {
        Some(LogHead {
            version,
            count,
            process,
            name,
        })
    } else {
        None
    }
}

// A name after its length.
#[tactic(auto, unfolding(crate::specs::Reading::name_at))]
fn read_name<'a>(cursor: &mut Cursor<'a>) -> Option<&'a [u8]>
    ensures { GivesField (option_map (λ x. x.now) result) cursor.new (name_at cursor.old.left) }
{
    let size = cursor.byte()?;
    let name = cursor.take(size as usize)?;
    if !is_name(name) {
        return None;
    }
    Some(name)
}
