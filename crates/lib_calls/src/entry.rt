// What an event of a process is told by.
ghost use Rattle.std.specs.Prelude.{◌≡◌};
ghost use Rattle.lib_calls.specs.Entry.{entry_of};

use call_table::Kind;
use fri_bytes::Bytes;
use lamport_tag::Tag;

/// A library call: its kind, and its arguments as far as the kind has them, else 0. An argument of 32
/// bits has zeros above.
#[derive(Clone, Copy)]
pub struct Call {
    pub kind: Kind,
    pub a0: u64,
    pub a1: u64,
    pub a2: u64,
}

/// An entry, whose bytes are lent: an event's Lamport clock, the thread that made it, the signal that
/// was delivered with it (0 for none), the call that was answered with its reply, the bytes that went
/// out and came in, and the tag of the datagram that was taken. A reply of 32 bits has zeros above, and
/// where there is no result it is 0.
#[derive(Clone, Copy)]
pub struct EntryView<'a> {
    pub clock: u64,
    pub thread: u16,
    pub signal: u8,
    pub call: Call,
    pub reply: u64,
    pub outgoing: &'a [u8],
    pub incoming: &'a [u8],
    pub tag: Option<Tag>,
}

/// An entry that owns its bytes.
#[derive(Drop)]
pub struct Entry {
    pub clock: u64,
    pub thread: u16,
    pub signal: u8,
    pub call: Call,
    pub reply: u64,
    pub outgoing: Bytes,
    pub incoming: Bytes,
    pub tag: Option<Tag>,
}

impl Entry {
    /// The same entry, whose bytes are lent.
    pub fn view(&self) -> EntryView<'_>
        ensures { entry_of result ≡ self.now }
    {
        EntryView {
            clock: self.clock,
            thread: self.thread,
            signal: self.signal,
            call: self.call,
            reply: self.reply,
            outgoing: self.outgoing.as_slice(),
            incoming: self.incoming.as_slice(),
            tag: self.tag,
        }
    }
}
