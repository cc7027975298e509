// Copies of a guest's memory.
ghost use Rattle.std.specs.Prelude.{◌≡◌, ◌+◌, ◌≤◌, ◌^◌, length, IfOk, Some, None, if◌then◌else◌};
ghost use Rattle.guest_memory.specs.Memory.{bytes_from, is_inside as is_inside_of};

use crate::arguments::{MEMORY_PAGE, is_inside, push_range};
use fri_bytes::Bytes;
use guest_memory::Memory;
use std::alloc::{AllocError, Global};

/// A copy of a range of the memory. None comes exactly where a byte of it lies outside.
pub fn memory_part(
    alloc: Global,
    memory: &Memory,
    addr: u64,
    len: u64,
) -> Result<Option<Bytes>, AllocError>
    ensures { IfOk result (λ found. found ≡ (if is_inside_of memory.now addr len then Some (bytes_from memory.now addr len) else None)) }
{
    if !is_inside(memory, addr, len) {
        return Ok(None);
    }
    Ok(Some(read(alloc, memory, addr, len)?))
}

/// A copy of all bytes of the memory.
pub fn memory_bytes(alloc: Global, memory: &Memory) -> Result<Bytes, AllocError>
    ensures { IfOk result (λ bytes. bytes ≡ memory.now.bytes) }
{
    let count = MEMORY_PAGE * u64::from(memory.size());
    read(alloc, memory, 0, count)
}

// A copy of a range that lies in the memory.
fn read(alloc: Global, memory: &Memory, addr: u64, len: u64) -> Result<Bytes, AllocError>
    requires inside { addr + len ≤ length memory.now.bytes }
    requires small { addr + len ≤ 2 ^ 24 }
    ensures { IfOk result (λ bytes. bytes ≡ bytes_from memory.now addr len) }
{
    let mut bytes = Vec::new(alloc);
    push_range(&mut bytes, memory, addr, len)?;
    Ok(Bytes::from_vec(bytes))
}
