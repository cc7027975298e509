// Lists of watch pages, as the bytes that they make end to end.
ghost use Rattle.std.specs.Prelude.{◌≡◌, ◌+◌, ◌*◌, ◌-◌, ◌/◌, ◌%◌, ◌≤◌, ◌<◌, ◌++◌, IfOk, OnErr, OnOk, length, min, slice_index_or, take, drop, vec_len};
ghost use Rattle.guest_memory.specs.Limits.{most_pages};
ghost use Rattle.guest_memory.specs.LittleEndian.{little_endian, low_bytes, IsWidth};
ghost use Rattle.guest_memory.specs.Memory.{no_stamps, put_piece, zero_bytes};
ghost use Rattle.guest_memory.specs.inside.Pages.{AreWhole, PutsPrefix, bytes_of_pages, stamps_of};
ghost use Rattle.guest_memory.specs.Stamps.{stamped_pages};

use crate::little_endian::{number_at, put_number, put_piece};
use crate::page::{SharedPage, WATCH_PAGE};
use std::alloc::{AllocError, Global};

// The number of so many bytes that stands in one page.
#[inline(always)]
pub(crate) fn number_in(pages: &[SharedPage], addr: usize, width: u32) -> u64
    requires width { IsWidth width }
    requires whole { AreWhole pages.now }
    requires one { addr % 4096 + width ≤ 4096 }
    requires inside { addr / 4096 < length pages.now }
    ensures { result ≡ little_endian (take width (drop addr (bytes_of_pages pages.now))) }
{
    number_at(pages[addr / WATCH_PAGE].bytes(), addr % WATCH_PAGE, width)
}

// Where the bytes begin that are over the edge of a page: its last 8, in front of the first 8 of the next page.
const EDGE: usize = WATCH_PAGE - 8;

// The 16 bytes over the edge of this page. Each copy is of 8 bytes, so that it is one instruction.
#[inline(always)]
fn bytes_over_edge(pages: &[SharedPage], index: usize) -> [u8; 16]
    requires whole { AreWhole pages.now }
    requires next { index + 1 < length pages.now }
    ensures { result ≡ take 16 (drop (4096 * index + 4088) (bytes_of_pages pages.now)) }
{
    let mut bytes = [0; 16];
    put_piece(&mut bytes, 0, &pages[index].bytes()[EDGE..WATCH_PAGE]);
    put_piece(&mut bytes, 8, &pages[index + 1].bytes()[0..8]);
    bytes
}

// The number of so many bytes that stands in two pages.
pub(crate) fn number_across(pages: &[SharedPage], addr: usize, width: u32) -> u64
    requires width { IsWidth width }
    requires whole { AreWhole pages.now }
    requires inside { addr + width ≤ length (bytes_of_pages pages.now) }
    requires two { 4096 < addr % 4096 + width }
    ensures { result ≡ little_endian (take width (drop addr (bytes_of_pages pages.now))) }
{
    let bytes = bytes_over_edge(pages, addr / WATCH_PAGE);
    number_at(&bytes, addr % WATCH_PAGE - EDGE, width)
}

// The longest first part of the range that stays in one page.
pub(crate) fn part_in(pages: &[SharedPage], addr: usize, len: usize) -> &[u8]
    requires whole { AreWhole pages.now }
    requires within { addr + len ≤ length (bytes_of_pages pages.now) }
    ensures { result.now ≡ take (min len (4096 - addr % 4096)) (drop addr (bytes_of_pages pages.now)) }
{
    let index = addr / WATCH_PAGE;
    let at = addr % WATCH_PAGE;
    if index == pages.len() {
        return &[];
    }
    let count = len.min(WATCH_PAGE - at);
    &pages[index].bytes()[at..at + count]
}

// The stamp of a page, or 0 where there is no such page.
pub(crate) fn stamp_at(pages: &[SharedPage], page: usize) -> u64
    ensures { result ≡ slice_index_or (stamps_of pages.now) page 0 }
{
    if page >= pages.len() {
        return 0;
    }
    pages[page].stamp()
}

// Writes so many bytes of the value into one page, by the event of this number.
#[inline(always)]
pub(crate) fn put_number_in(
    pages: &mut [SharedPage],
    addr: usize,
    width: u32,
    value: u64,
    number: u64,
) -> Result<(), AllocError>
    requires width { IsWidth width }
    requires whole { AreWhole pages.old }
    requires one { addr % 4096 + width ≤ 4096 }
    requires inside { addr / 4096 < length pages.old }
    ensures whole { AreWhole pages.new }
    ensures len { length pages.new ≡ length pages.old }
    ensures bytes { OnOk result (bytes_of_pages pages.new ≡ put_piece (bytes_of_pages pages.old) addr (low_bytes width value)) }
    ensures stamps { OnOk result (stamps_of pages.new ≡ stamped_pages (stamps_of pages.old) addr (length (low_bytes width value)) number) }
    ensures err { OnErr result (PutsPrefix pages.old pages.new addr (low_bytes width value) number) }
{
    pages[addr / WATCH_PAGE].put_number(addr % WATCH_PAGE, width, value, number)?;
    Ok(())
}

// Writes so many bytes of the value into two pages, by the event of this number: 8 into each, of which the others are as
// they were.
pub(crate) fn put_number_across(
    pages: &mut [SharedPage],
    addr: usize,
    width: u32,
    value: u64,
    number: u64,
) -> Result<(), AllocError>
    requires width { IsWidth width }
    requires whole { AreWhole pages.old }
    requires within { addr + width ≤ length (bytes_of_pages pages.old) }
    requires two { 4096 < addr % 4096 + width }
    ensures whole { AreWhole pages.new }
    ensures len { length pages.new ≡ length pages.old }
    ensures bytes { OnOk result (bytes_of_pages pages.new ≡ put_piece (bytes_of_pages pages.old) addr (low_bytes width value)) }
    ensures stamps { OnOk result (stamps_of pages.new ≡ stamped_pages (stamps_of pages.old) addr (length (low_bytes width value)) number) }
    ensures err { OnErr result (PutsPrefix pages.old pages.new addr (low_bytes width value) number) }
{
    let index = addr / WATCH_PAGE;
    let mut bytes = bytes_over_edge(pages, index);
    put_number(&mut bytes, addr % WATCH_PAGE - EDGE, width, value);
    pages[index].put(EDGE, &bytes[0..8], number)?;
    pages[index + 1].put(0, &bytes[8..16], number)?;
    Ok(())
}

// Writes the piece over the pages, by the event of this number.
#[inline(never)]
pub(crate) fn put_all(
    pages: &mut [SharedPage],
    addr: usize,
    piece: &[u8],
    number: u64,
) -> Result<(), AllocError>
    requires whole { AreWhole pages.old }
    requires within { addr + length piece.now ≤ length (bytes_of_pages pages.old) }
    requires few { length (bytes_of_pages pages.old) ≤ 16777216 }
    ensures whole { AreWhole pages.new }
    ensures len { length pages.new ≡ length pages.old }
    ensures bytes { OnOk result (bytes_of_pages pages.new ≡ put_piece (bytes_of_pages pages.old) addr piece.now) }
    ensures stamps { OnOk result (stamps_of pages.new ≡ stamped_pages (stamps_of pages.old) addr (length piece.now) number) }
    ensures err { OnErr result (PutsPrefix pages.old pages.new addr piece.now number) }
{
    let mut done = 0;
    while done < piece.len() {
        let at = (addr + done) % WATCH_PAGE;
        let count = (WATCH_PAGE - at).min(piece.len() - done);
        pages[(addr + done) / WATCH_PAGE].put(at, &piece[done..done + count], number)?;
        done += count;
    }
    Ok(())
}

// Adds pages of zeros at the end, 16 for each page of the guest. They are one page, which is shared
// until it is written to.
pub(crate) fn add_zeros(
    alloc: Global,
    pages: &mut Vec<SharedPage>,
    count: u32,
) -> Result<(), AllocError>
    requires { count ≤ most_pages }
    ensures whole { AreWhole pages.old.items → AreWhole pages.new.items }
    ensures len { OnOk result (vec_len pages.new ≡ vec_len pages.old + 16 * count) }
    ensures bytes { OnOk result (bytes_of_pages pages.new.items ≡ bytes_of_pages pages.old.items ++ zero_bytes (65536 * count)) }
    ensures stamps { OnOk result (stamps_of pages.new.items ≡ stamps_of pages.old.items ++ no_stamps count) }
    ensures err { OnErr result (pages.new.items ≡ pages.old.items) }
{
    let zeros = SharedPage::zeros(alloc)?;
    let mut more = Vec::with_capacity(alloc, 16 * count as usize)?;
    for _i in 0..16 * count {
        more.push(zeros.share()?)?;
    }
    pages.append(&mut more)?;
    Ok(())
}

// The same pages.
pub(crate) fn share_all(alloc: Global, pages: &[SharedPage]) -> Result<Vec<SharedPage>, AllocError>
    ensures { IfOk result (λ copy. copy.items ≡ pages.now) }
{
    let mut copy = Vec::with_capacity(alloc, pages.len())?;
    for page in pages {
        copy.push(page.share()?)?;
    }
    Ok(copy)
}
