// The stamps of a memory, and its snapshots.
use guest_memory::Memory;
use std::alloc::{AllocError, Global};
use std::test::Fail;

#[test]
fn a_write_stamps_each_page_that_it_touches(rt: HostRuntime) -> Result<(), Fail> {
    let mut memory = Memory::new(rt.alloc(), 1, 2)?;
    memory.begin_event(7);
    assert!(rt; memory.store(8190, 4, 1)?);
    assert!(rt; memory.write(16_384, b"")?);
    assert_eq!(rt; memory.grow(1)?, Some(1));
    let stamps = [0, 1, 2, 3, 4, 16, 32].map(|page| memory.stamp(page));
    assert_eq!(rt; stamps, [0, 7, 7, 0, 0, 0, 0]);
    Ok(())
}

// Where the store of this number goes, of so many that no two of them meet.
fn place(number: u64) -> u64 {
    8001 * (number % 2049)
}

// The memory as it stood after each of so many stores.
fn kept(alloc: Global, memory: &mut Memory, count: u64) -> Result<Vec<Memory>, AllocError> {
    let mut snapshots = Vec::new(alloc);
    for i in 0..count {
        memory.store(place(i), 8, i + 1)?;
        snapshots.push(memory.snapshot()?)?;
    }
    Ok(snapshots)
}

fn found(snapshots: &[Memory], snapshot: u64, number: u64) -> Option<u64> {
    snapshots.get(snapshot as usize)?.load(place(number), 8)
}

#[test]
fn snapshots_of_a_great_memory_share_its_pages(rt: HostRuntime) -> Result<(), Fail> {
    let mut memory = Memory::new(rt.alloc(), 256, 256)?;
    let snapshots = kept(rt.alloc(), &mut memory, 2048)?;
    // Each has what was stored before it, and nothing of what was stored later.
    for i in 0..2048 {
        assert_eq!(rt; found(&snapshots, i, i), Some(i + 1));
        assert_eq!(rt; found(&snapshots, i, i + 1), Some(0));
    }
    Ok(())
}
