// The bytes of the guest's memory that a call names.
ghost use Rattle.std.specs.Prelude.{◌≡◌, ◌+◌, ◌++◌, ◌^◌, ◌≤◌, bytes_eq, length, OnOk, IsTrue, []};
ghost use Rattle.guest_memory.specs.Memory.{bytes_from, is_inside as is_inside_of};
ghost use Rattle.lib_calls.specs.Effects.{is_good, is_range as is_range_of, named, outgoing_of};

use crate::entry::Call;
use call_table::Kind;
use fri_bytes::put_bytes;
use guest_memory::Memory;
use std::alloc::AllocError;

// How many bytes a call may name.
const MOST_CALL_BYTES: u64 = 60_000;

// How many bytes a page of the memory has.
pub(crate) const MEMORY_PAGE: u64 = 65_536;

/// Whether each range of bytes that the call names lies in the memory and has at most 60,000 bytes. Only
/// print, random, send, recv and try_recv name a range, and the last two also 4 bytes for the sender. An
/// empty range may be at the memory's end, also where the memory has no bytes.
#[tactic(auto, unfolding(crate::specs::Effects::is_good))]
pub fn good_arguments(call: &Call, memory: &Memory) -> bool
    ensures { result ≡ is_good call.now memory.now }
{
    match call.kind {
        Kind::Print | Kind::Random => is_range(memory, call.a0, call.a1),
        Kind::Send => is_range(memory, call.a1, call.a2),
        Kind::Recv | Kind::TryRecv => {
            is_range(memory, call.a0, call.a1) && is_inside(memory, call.a2, 4)
        }
        _ => true,
    }
}

// Whether the range lies in the memory and is one that a call may name.
#[tactic(auto, unfolding(crate::specs::Effects::is_range))]
fn is_range(memory: &Memory, addr: u64, len: u64) -> bool
    ensures value { result ≡ is_range_of memory.now addr len }
    ensures small { IsTrue result → addr + len ≤ 2 ^ 24 }
{
    len <= MOST_CALL_BYTES && is_inside(memory, addr, len)
}

// Whether the range lies in the memory, which is not large.
pub(crate) fn is_inside(memory: &Memory, addr: u64, len: u64) -> bool
    ensures value { result ≡ is_inside_of memory.now addr len }
    ensures small { IsTrue result → addr + len ≤ 2 ^ 24 }
{
    let count = MEMORY_PAGE * u64::from(memory.size());
    addr <= count && len <= count - addr
}

/// How many bytes the call sends out of the memory as it is now.
#[tactic(auto, unfolding(crate::specs::Effects::outgoing_of))]
#[inline(always)]
pub fn outgoing_length(call: &Call, memory: &Memory) -> u32
    ensures { result ≡ length (outgoing_of call.now memory.now) }
{
    match call.kind {
        Kind::Print => named_length(memory, call.a0, call.a1),
        Kind::Send => named_length(memory, call.a1, call.a2),
        _ => 0,
    }
}

// How many bytes a range has that a call may name, and none where it may not.
fn named_length(memory: &Memory, addr: u64, len: u64) -> u32
    ensures { result ≡ length (named memory.now addr len) }
{
    if is_range(memory, addr, len) {
        len as u32
    } else {
        0
    }
}

/// Adds the bytes that the call sends out of the memory as it is now: those that print and send name, where their
/// arguments are good, and none else.
#[tactic(auto, unfolding(crate::specs::Effects::outgoing_of))]
#[inline(always)]
pub fn push_outgoing(out: &mut Vec<u8>, call: &Call, memory: &Memory) -> Result<(), AllocError>
    ensures { OnOk result (out.new.items ≡ out.old.items ++ outgoing_of call.now memory.now) }
{
    match call.kind {
        Kind::Print => push_named(out, memory, call.a0, call.a1),
        Kind::Send => push_named(out, memory, call.a1, call.a2),
        _ => Ok(()),
    }
}

// Adds a range that a call may name, and nothing where it may not.
fn push_named(out: &mut Vec<u8>, memory: &Memory, addr: u64, len: u64) -> Result<(), AllocError>
    ensures { OnOk result (out.new.items ≡ out.old.items ++ named memory.now addr len) }
{
    if !is_range(memory, addr, len) {
        return Ok(());
    }
    push_range(out, memory, addr, len)
}

// Adds a range of the memory, which lends it in parts.
pub(crate) fn push_range(
    out: &mut Vec<u8>,
    memory: &Memory,
    addr: u64,
    len: u64,
) -> Result<(), AllocError>
    requires inside { addr + len ≤ length memory.now.bytes }
    requires small { addr + len ≤ 2 ^ 24 }
    ensures { OnOk result (out.new.items ≡ out.old.items ++ bytes_from memory.now addr len) }
{
    let mut count = 0;
    while count < len {
        let Some(part) = memory.lent(addr + count, len - count) else {
            unreachable!();
        };
        put_bytes(out, part)?;
        count += part.len() as u64;
    }
    Ok(())
}

/// Whether these are the bytes that the call sends out of the memory as it is now. It takes no memory.
#[tactic(auto, unfolding(crate::specs::Effects::outgoing_of))]
pub fn is_outgoing(bytes: &[u8], call: &Call, memory: &Memory) -> bool
    ensures { result ≡ bytes_eq bytes.now (outgoing_of call.now memory.now) }
{
    match call.kind {
        Kind::Print => is_named(bytes, memory, call.a0, call.a1),
        Kind::Send => is_named(bytes, memory, call.a1, call.a2),
        _ => is_nothing(bytes),
    }
}

// Whether there are no bytes.
fn is_nothing(bytes: &[u8]) -> bool
    ensures { result ≡ bytes_eq bytes.now [] }
{
    bytes.is_empty()
}

// Whether these are the bytes of a range that a call may name, and none where it may not.
#[tactic(auto, using(crate::proofs::MemoryRanges::range_inside, crate::proofs::ComparedRanges::not_as_long))]
fn is_named(bytes: &[u8], memory: &Memory, addr: u64, len: u64) -> bool
    ensures { result ≡ bytes_eq bytes.now (named memory.now addr len) }
{
    if !is_range(memory, addr, len) {
        return is_nothing(bytes);
    }
    if bytes.len() as u64 != len {
        return false;
    }
    stands_at(bytes, memory, addr)
}

// Whether the bytes are there in the memory, which lends its own in parts.
fn stands_at(bytes: &[u8], memory: &Memory, addr: u64) -> bool
    requires inside { addr + length bytes.now ≤ length memory.now.bytes }
    requires small { addr + length bytes.now ≤ 2 ^ 24 }
    ensures { result ≡ bytes_eq bytes.now (bytes_from memory.now addr (length bytes.now)) }
{
    let mut count = 0;
    while count < bytes.len() {
        let Some(part) = memory.lent(addr + count as u64, (bytes.len() - count) as u64) else {
            unreachable!();
        };
        if &bytes[count..count + part.len()] != part {
            return false;
        }
        count += part.len();
    }
    true
}
