// One watch page of a memory, which copies of the memory may share.
ghost use Rattle.std.specs.Prelude.{◌≡◌, ◌+◌, ◌≤◌, IfOk, length, if◌then◌else◌, is_ok, replicate};
ghost use Rattle.guest_memory.specs.LittleEndian.{low_bytes, IsWidth};
ghost use Rattle.guest_memory.specs.inside.Pages.{put_in_page};

use crate::little_endian::{put_number, put_piece};
use std::alloc::{AllocError, Global};
use std::marker::Model;
use std::rc::Rc;

// How many bytes a watch page has.
pub(crate) const WATCH_PAGE: usize = 4096;

/// The bytes of a watch page, and its stamp: the number of the last event that wrote to them, or 0. It
/// is in the page, so that who holds the page has both.
#[derive(Clone, Copy)]
pub struct Page {
    pub stamp: u64,
    pub bytes: [u8; 4096],
}

impl Page {
    #[inline(always)]
    fn put_number(&mut self, at: usize, width: u32, value: u64, number: u64)
        requires width { IsWidth width }
        requires inside { at + width ≤ 4096 }
        ensures { self.new ≡ put_in_page self.old at (low_bytes width value) number }
    {
        put_number(&mut self.bytes, at, width, value);
        self.stamp = number;
    }

    #[inline]
    fn put(&mut self, at: usize, piece: &[u8], number: u64)
        requires { at + length piece.now ≤ 4096 }
        ensures { self.new ≡ put_in_page self.old at piece.now number }
    {
        put_piece(&mut self.bytes, at, piece);
        self.stamp = number;
    }
}

/// A watch page that others may hold too. It is seen as the page: who writes first makes it their own.
#[derive(Drop)]
pub(crate) struct SharedPage {
    page: Rc<Page>,
}

impl Model for SharedPage {
    ghost use Rattle.guest_memory.specs.declared.page.Page.{Page};

    ghost Value = { Page };

    ghost view = { λ h. h.page.value };
}

impl SharedPage {
    pub fn zeros(alloc: Global) -> Result<SharedPage, AllocError>
        ensures { IfOk result (λ page. (page.stamp ≡ 0) × (page.bytes ≡ replicate 4096 0)) }
    {
        let zeros = Page {
            stamp: 0,
            bytes: [0; 4096],
        };
        let page = Rc::new(alloc, zeros)?;
        Ok(SharedPage { page })
    }

    #[inline(always)]
    pub fn bytes(&self) -> &[u8]
        ensures { result.now ≡ self.now.bytes }
    {
        &self.page.bytes
    }

    pub fn stamp(&self) -> u64
        ensures { result ≡ self.now.stamp }
    {
        self.page.stamp
    }

    // The same page.
    #[inline]
    pub fn share(&self) -> Result<SharedPage, AllocError>
        ensures { IfOk result (λ page. page ≡ self.now) }
    {
        let page = self.page.clone()?;
        Ok(SharedPage { page })
    }

    // Writes so many bytes of the value, by the event of this number.
    #[inline(always)]
    pub fn put_number(
        &mut self,
        at: usize,
        width: u32,
        value: u64,
        number: u64,
    ) -> Result<(), AllocError>
        requires width { IsWidth width }
        requires inside { at + width ≤ 4096 }
        ensures { self.new ≡ (if is_ok result then put_in_page self.old at (low_bytes width value) number else self.old) }
    {
        match Rc::get_mut(&mut self.page) {
            Some(page) => {
                page.put_number(at, width, value, number);
                Ok(())
            }
            None => self.put_number_shared(at, width, value, number),
        }
    }

    // The same where others hold the page: apart, so that a store in place keeps its registers.
    #[inline(never)]
    fn put_number_shared(
        &mut self,
        at: usize,
        width: u32,
        value: u64,
        number: u64,
    ) -> Result<(), AllocError>
        requires width { IsWidth width }
        requires inside { at + width ≤ 4096 }
        ensures { self.new ≡ (if is_ok result then put_in_page self.old at (low_bytes width value) number else self.old) }
    {
        let page = Rc::make_mut(&mut self.page)?;
        page.put_number(at, width, value, number);
        Ok(())
    }

    // Writes the piece, by the event of this number.
    #[inline(always)]
    pub fn put(&mut self, at: usize, piece: &[u8], number: u64) -> Result<(), AllocError>
        requires { at + length piece.now ≤ 4096 }
        ensures { self.new ≡ (if is_ok result then put_in_page self.old at piece.now number else self.old) }
    {
        match Rc::get_mut(&mut self.page) {
            Some(page) => {
                page.put(at, piece, number);
                Ok(())
            }
            None => self.put_shared(at, piece, number),
        }
    }

    #[inline(never)]
    fn put_shared(&mut self, at: usize, piece: &[u8], number: u64) -> Result<(), AllocError>
        requires { at + length piece.now ≤ 4096 }
        ensures { self.new ≡ (if is_ok result then put_in_page self.old at piece.now number else self.old) }
    {
        let page = Rc::make_mut(&mut self.page)?;
        page.put(at, piece, number);
        Ok(())
    }
}
