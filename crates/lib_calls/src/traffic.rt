// What an event's entry tells of datagrams, of random bytes and of what is printed.
ghost use Rattle.std.specs.Prelude.{◌≡◌};
ghost use Rattle.lib_calls.specs.Entry.{entry_of};
ghost use Rattle.lib_calls.specs.Traffic.{drawn as drawn_of, draws_as, is_sent as is_sent_of, is_taken as is_taken_of, printed as printed_of, prints_as, sends_as, takes_as};

use crate::answer::{NONE_THERE, REFUSED};
use crate::entry::EntryView;
use call_table::Kind;

/// Whether the event sent a datagram into a group of `count`: a `send` with good arguments to one of its
/// processes.
#[tactic(auto, unfolding(crate::specs::Traffic::is_sent))]
pub fn is_sent(entry: &EntryView<'_>, count: u32) -> bool
    ensures { result ≡ is_sent_of count (entry_of entry.now) }
{
    match entry.call.kind {
        Kind::Send => entry.reply != REFUSED && entry.call.a0 < u64::from(count),
        _ => false,
    }
}

/// Whether the event took a datagram out of the mailbox.
#[tactic(auto, unfolding(crate::specs::Traffic::is_taken))]
pub fn is_taken(entry: &EntryView<'_>) -> bool
    ensures { result ≡ is_taken_of (entry_of entry.now) }
{
    match entry.call.kind {
        Kind::Recv => entry.reply != REFUSED,
        Kind::TryRecv => entry.reply != REFUSED && entry.reply != NONE_THERE,
        _ => false,
    }
}

/// How many random bytes the event took.
#[tactic(auto, unfolding(crate::specs::Traffic::drawn))]
pub fn drawn(entry: &EntryView<'_>) -> usize
    ensures { result ≡ drawn_of (entry_of entry.now) }
{
    match entry.call.kind {
        Kind::Random if entry.reply != REFUSED => entry.incoming.len(),
        _ => 0,
    }
}

/// What the event printed.
#[tactic(auto, unfolding(crate::specs::Traffic::printed))]
pub fn printed<'a>(entry: &EntryView<'a>) -> &'a [u8]
    ensures { result.now ≡ printed_of (entry_of entry.now) }
{
    match entry.call.kind {
        Kind::Print => entry.outgoing,
        _ => &[],
    }
}
