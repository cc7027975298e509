// What the answer to a call writes to the guest's memory.
ghost use Rattle.std.specs.Prelude.{◌≡◌, ◌+◌, ◌≤◌, length, OnOk, OnErr, IsTrue};
ghost use Rattle.guest_memory.specs.Memory.{WritesPrefix, with_bytes};
ghost use Rattle.lib_calls.specs.Answer.{answer_of};
ghost use Rattle.lib_calls.specs.Entry.{entry_of};
ghost use Rattle.lib_calls.specs.Effects.{WritesPart, call_brings, with_incoming, has_good_ranges, is_answer, put_in_memory, with_received, sender_of as sender_number, memory_after_answer};

use crate::arguments::good_arguments;
use crate::entry::EntryView;
use call_table::Kind;
use guest_memory::Memory;
use lamport_tag::Tag;
use std::alloc::AllocError;

/// The reply to a call that is refused, -1 in 32 bits: its arguments are bad, or what it asks for cannot be.
pub const REFUSED: u64 = 0xFFFF_FFFF;

/// The reply of a try_recv that found no datagram, -2 in 32 bits.
pub const NONE_THERE: u64 = 0xFFFF_FFFE;

/// Writes to the memory what the entry's answer does: the bytes that random took, or the payload of the
/// datagram that recv or try_recv took and then its sender. Other answers write nothing. After want of
/// memory a part of the bytes may stand.
#[tactic(auto, unfolding(crate::specs::Effects::is_good, crate::specs::Effects::is_answer, crate::specs::Effects::memory_after_answer))]
pub fn write_back(entry: &EntryView<'_>, memory: &mut Memory) -> Result<(), AllocError>
    requires { IsTrue (is_answer entry.now.call (answer_of (entry_of entry.now)) memory.old) }
    ensures ok { OnOk result (memory.new ≡ memory_after_answer entry.now.call (answer_of (entry_of entry.now)) memory.old) }
    ensures err { OnErr result (WritesPart entry.now.call (answer_of (entry_of entry.now)) memory.old memory.new) }
    ensures max { memory.new.max ≡ memory.old.max }
{
    // Most calls write nothing, whatever their arguments are.
    if !entry.call.kind.has_incoming() || !good_arguments(&entry.call, memory) {
        return Ok(());
    }
    write_answer(entry, memory)
}

// Writes what an answer does to a call with good arguments.
fn write_answer(entry: &EntryView<'_>, memory: &mut Memory) -> Result<(), AllocError>
    requires good { IsTrue (has_good_ranges entry.now.call.kind entry.now.call memory.old) }
    requires answer { IsTrue (call_brings entry.now.call.kind entry.now.call (answer_of (entry_of entry.now)) memory.old) }
    ensures ok { OnOk result (memory.new ≡ put_in_memory entry.now.call.kind entry.now.call (answer_of (entry_of entry.now)) memory.old) }
    ensures err { OnErr result (WritesPart entry.now.call (answer_of (entry_of entry.now)) memory.old memory.new) }
    ensures max { memory.new.max ≡ memory.old.max }
{
    match entry.call.kind {
        Kind::Random => put_bytes(entry, memory),
        Kind::Recv => put_datagram(entry, memory),
        Kind::TryRecv if entry.reply != NONE_THERE => put_datagram(entry, memory),
        _ => Ok(()),
    }
}

// Writes the bytes that came in.
fn put_bytes(entry: &EntryView<'_>, memory: &mut Memory) -> Result<(), AllocError>
    requires { entry.now.call.a0 + length entry.now.incoming.now ≤ length memory.old.bytes }
    ensures ok { OnOk result (memory.new ≡ with_incoming entry.now.call (answer_of (entry_of entry.now)) memory.old) }
    ensures err { OnErr result (WritesPart entry.now.call (answer_of (entry_of entry.now)) memory.old memory.new) }
    ensures max { memory.new.max ≡ memory.old.max }
{
    put(memory, entry.call.a0, entry.incoming)
}

// Writes the payload of a datagram, and then its sender.
fn put_datagram(entry: &EntryView<'_>, memory: &mut Memory) -> Result<(), AllocError>
    requires payload { entry.now.call.a0 + length entry.now.incoming.now ≤ length memory.old.bytes }
    requires sender { entry.now.call.a2 + 4 ≤ length memory.old.bytes }
    ensures ok { OnOk result (memory.new ≡ with_received entry.now.call (answer_of (entry_of entry.now)) memory.old) }
    ensures err { OnErr result (WritesPart entry.now.call (answer_of (entry_of entry.now)) memory.old memory.new) }
    ensures max { memory.new.max ≡ memory.old.max }
{
    put(memory, entry.call.a0, entry.incoming)?;
    put(memory, entry.call.a2, &sender_of(entry.tag).to_le_bytes())
}

// Who sent a datagram with this tag, or without one.
fn sender_of(tag: Option<Tag>) -> u32
    ensures { result ≡ sender_number tag }
{
    tag.map_or(u32::MAX, |tag| tag.sender)
}

// Writes a piece that lies in the memory.
fn put(memory: &mut Memory, addr: u64, piece: &[u8]) -> Result<(), AllocError>
    requires { addr + length piece.now ≤ length memory.old.bytes }
    ensures ok { OnOk result (memory.new ≡ with_bytes memory.old addr piece.now) }
    ensures err { OnErr result (WritesPrefix memory.old memory.new addr piece.now) }
    ensures max { memory.new.max ≡ memory.old.max }
{
    memory.write(addr, piece)?;
    Ok(())
}
