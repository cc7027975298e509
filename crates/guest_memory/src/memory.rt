// A linear memory.
ghost use Rattle.std.specs.Prelude.{◌≡◌, ◌↔◌, ◌+◌, ◌%◌, ◌<◌, ◌≤◌, length, IsSome, IfSome, IfOk, OnOk, OnErr, Ok, None};
ghost use Rattle.guest_memory.specs.Limits.{most_pages};
ghost use Rattle.guest_memory.specs.LittleEndian.{low_bytes, IsWidth};
ghost use Rattle.guest_memory.specs.Memory.{IsMemory, WritesPrefix, after_store, after_write_at, bytes_from, fresh_memory, growth_size, after_grow, is_inside, loaded_number, size_of, stamp_of, stretch_in_page};

use crate::page::{SharedPage, WATCH_PAGE};
use crate::pages::{
    add_zeros, number_across, number_in, part_in, put_all, put_number_across, put_number_in,
    share_all, stamp_at,
};
use std::alloc::{AllocError, Global};
use std::marker::Model;

// How many watch pages a page has.
const WATCH_PAGES: usize = 16;

/// How many pages of 65,536 bytes a memory may have.
pub const MOST_PAGES: u32 = 256;

/// The linear memory of a guest: pages of 65,536 bytes, and the number of pages that it may grow
/// to. It is seen as the list of its bytes, that number, the stamp of each watch page of 4,096 bytes and
/// the number of the event that writes now.
#[derive(Drop)]
pub struct Memory {
    alloc: Global,
    pages: Vec<SharedPage>,
    max: u32,
    number: u64,
}

impl Model for Memory {
    ghost use Rattle.guest_memory.specs.Memory.{Memory as Bytes};

    ghost Value = { Bytes };

    ghost use Rattle.guest_memory.specs.inside.Fields.{memory_of, HasMemory};

    ghost view = { memory_of };

    ghost invariant = { HasMemory };
}

impl Memory {
    /// So many pages of zeros.
    pub fn new(alloc: Global, pages: u32, max: u32) -> Result<Memory, AllocError>
        requires within { pages ≤ max }
        requires most { max ≤ most_pages }
        ensures { IfOk result (λ memory. memory ≡ fresh_memory pages max) }
    {
        let mut list = Vec::new(alloc);
        add_zeros(alloc, &mut list, pages)?;
        Ok(Memory {
            alloc,
            pages: list,
            max,
            number: 0,
        })
    }

    /// An equal memory. The two share each page until one of them writes to it.
    pub fn snapshot(&self) -> Result<Memory, AllocError>
        ensures { IfOk result (λ copy. copy ≡ self.now) }
    {
        let pages = share_all(self.alloc, &self.pages)?;
        Ok(Memory {
            alloc: self.alloc,
            pages,
            max: self.max,
            number: self.number,
        })
    }

    /// Later writes are those of the event of this number.
    #[inline]
    pub fn begin_event(&mut self, number: u64)
        ensures { self.new ≡ record self.old { number = number } }
    {
        self.number = number;
    }

    /// The number of the event that writes now.
    #[inline]
    pub fn number(&self) -> u64
        ensures { result ≡ self.now.number }
    {
        self.number
    }

    /// The number of the last event that wrote to a byte of the watch page. It is 0 where none did, and
    /// where there is no such page.
    pub fn stamp(&self, page: u32) -> u64
        ensures { result ≡ stamp_of self.now page }
    {
        stamp_at(&self.pages, page as usize)
    }

    /// The number of its pages, as `memory.size` answers it.
    pub fn size(&self) -> u32
        ensures size { result ≡ size_of self.now }
        ensures sound { IsMemory self.now }
    {
        (self.pages.len() / WATCH_PAGES) as u32
    }

    // Whether each byte of the range lies in the memory.
    #[inline(always)]
    fn contains(&self, addr: u64, len: u64) -> bool
        ensures { result ≡ is_inside self.now addr len }
    {
        let count = (self.pages.len() * WATCH_PAGE) as u64;
        addr <= count && len <= count - addr
    }

    /// The number of so many bytes that stands at the address, the lowest byte first. `None` comes
    /// exactly where one of the bytes lies outside.
    #[inline(always)]
    pub fn load(&self, addr: u64, width: u32) -> Option<u64>
        requires { IsWidth width }
        ensures { result ≡ loaded_number self.now addr width }
    {
        if addr as usize % WATCH_PAGE + width as usize > WATCH_PAGE {
            return self.load_across(addr, width);
        }
        if addr as usize / WATCH_PAGE >= self.pages.len() {
            return None;
        }
        Some(number_in(&self.pages, addr as usize, width))
    }

    // The same, where the bytes are in two watch pages.
    #[inline(never)]
    fn load_across(&self, addr: u64, width: u32) -> Option<u64>
        requires width { IsWidth width }
        requires two { 4096 < addr % 4096 + width }
        ensures { result ≡ loaded_number self.now addr width }
    {
        if !self.contains(addr, u64::from(width)) {
            return None;
        }
        Some(number_across(&self.pages, addr as usize, width))
    }

    /// Writes so many bytes of the number at the address, the lowest byte first. `Ok(false)` comes
    /// exactly where one of them lies outside; nothing is changed then.
    #[inline(always)]
    pub fn store(&mut self, addr: u64, width: u32, value: u64) -> Result<bool, AllocError>
        requires { IsWidth width }
        ensures answer { IfOk result (λ stands. stands ≡ is_inside self.old addr width) }
        ensures ok { OnOk result (self.new ≡ after_store self.old addr width value) }
        ensures err { OnErr result (WritesPrefix self.old self.new addr (low_bytes width value)) }
    {
        if addr as usize % WATCH_PAGE + width as usize > WATCH_PAGE {
            return self.store_across(addr, width, value);
        }
        if addr as usize / WATCH_PAGE >= self.pages.len() {
            return Ok(false);
        }
        put_number_in(&mut self.pages, addr as usize, width, value, self.number)?;
        Ok(true)
    }

    // The same, where the bytes are in two watch pages.
    #[inline(never)]
    fn store_across(&mut self, addr: u64, width: u32, value: u64) -> Result<bool, AllocError>
        requires width { IsWidth width }
        requires two { 4096 < addr % 4096 + width }
        ensures answer { IfOk result (λ stands. stands ≡ is_inside self.old addr width) }
        ensures ok { OnOk result (self.new ≡ after_store self.old addr width value) }
        ensures err { OnErr result (WritesPrefix self.old self.new addr (low_bytes width value)) }
    {
        if !self.contains(addr, u64::from(width)) {
            return Ok(false);
        }
        put_number_across(&mut self.pages, addr as usize, width, value, self.number)?;
        Ok(true)
    }

    /// Writes the piece at the address. `Ok(false)` comes exactly where a byte of it lies outside;
    /// nothing is changed then.
    pub fn write(&mut self, addr: u64, piece: &[u8]) -> Result<bool, AllocError>
        ensures answer { IfOk result (λ stands. stands ≡ is_inside self.old addr (length piece.now)) }
        ensures ok { OnOk result (self.new ≡ after_write_at self.old addr piece.now) }
        ensures err { OnErr result (WritesPrefix self.old self.new addr piece.now) }
    {
        if !self.contains(addr, piece.len() as u64) {
            return Ok(false);
        }
        put_all(&mut self.pages, addr as usize, piece, self.number)?;
        Ok(true)
    }

    /// The longest first part of the range that stays in one watch page of 4,096 bytes.
    pub fn lent(&self, addr: u64, len: u64) -> Option<&[u8]>
        ensures some { IsSome result ↔ (addr + len ≤ length self.now.bytes) }
        ensures value { IfSome result (λ part. part.now ≡ bytes_from self.now addr (stretch_in_page addr len)) }
    {
        if !self.contains(addr, len) {
            return None;
        }
        Some(part_in(&self.pages, addr as usize, len as usize))
    }

    /// Adds so many pages of zeros, and gives the number of pages before. `Ok(None)` comes exactly
    /// where the sum passes the maximum.
    pub fn grow(&mut self, pages: u32) -> Result<Option<u32>, AllocError>
        ensures answer { IfOk result (λ before. before ≡ growth_size self.old pages) }
        ensures ok { OnOk result (self.new ≡ after_grow self.old pages) }
        ensures refused { growth_size self.old pages ≡ None → result ≡ Ok None }
        ensures err { OnErr result (self.new ≡ self.old) }
    {
        let before = self.size();
        if pages > self.max - before {
            return Ok(None);
        }
        add_zeros(self.alloc, &mut self.pages, pages)?;
        Ok(Some(before))
    }
}
