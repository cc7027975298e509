// A cursor, which reads bytes from the front of a slice.
ghost use Rattle.std.specs.Prelude.{◌≡◌, ◌+◌, ◌^◌, ◌<◌, ◌≤◌, pos, IfSome, IfNone, option_map};
ghost use Rattle.std.specs.Int.{w16, w32, w64};
ghost use Rattle.fri_bytes.specs.Leb.{IsUnsigned, IsSigned, unsigned_at, signed_at};
ghost use Rattle.fri_bytes.specs.Reading.{TakesFromCursor, BeginsSpelling, OnlySpellingBegins, NoSpellingBegins, byte_at, piece_at, le_at};
ghost use Rattle.fri_bytes.specs.Short.{IsShort, short_at};

use crate::leb::{signed, unsigned};
use crate::short::short;
use byteorder::{ByteOrder, LittleEndian};
use std::marker::Model;

/// A place in some bytes, from which they are read. Contracts see the bytes that are left and the
/// count of those that were taken. A reader that answers None leaves the cursor as it was.
#[derive(Drop)]
pub struct Cursor<'a> {
    rest: &'a [u8],
    at: usize,
}

impl<'a> Model for Cursor<'a> {
    ghost use Rattle.std.specs.Prelude.{◌+◌, ◌^◌, ◌<◌, length};
    ghost use Rattle.fri_bytes.specs.Reading.{CursorState};

    ghost Value = { CursorState };

    ghost view = { λ c. record { left = c.rest.now; at = c.at } };

    ghost invariant = { λ c. c.at + length c.rest.now < 2 ^ 64 };
}

impl<'a> Cursor<'a> {
    /// A cursor at the front of the bytes.
    pub fn new(bytes: &'a [u8]) -> Cursor<'a>
        ensures left { result.left ≡ bytes.now }
        ensures at { result.at ≡ 0 }
    {
        Cursor { rest: bytes, at: 0 }
    }

    /// The bytes that are left.
    pub fn rest(&self) -> &'a [u8]
        ensures { result.now ≡ self.now.left }
    {
        self.rest
    }

    /// How many bytes were taken.
    pub fn at(&self) -> usize
        ensures { result ≡ self.now.at }
    {
        self.at
    }

    /// The next `n` bytes, a piece of the slice that is read.
    pub fn take(&mut self, n: usize) -> Option<&'a [u8]>
        ensures { TakesFromCursor self.old self.new (option_map (λ x. x.now) result) (piece_at n self.old.left) }
    {
        let (piece, rest) = self.rest.split_at_checked(n)?;
        self.rest = rest;
        self.at += n;
        Some(piece)
    }

    /// The next byte.
    pub fn byte(&mut self) -> Option<u8>
        ensures { TakesFromCursor self.old self.new result (byte_at self.old.left) }
    {
        let (first, rest) = self.rest.split_first()?;
        self.rest = rest;
        self.at += 1;
        Some(*first)
    }

    /// The next 2 bytes as a number, the lowest first.
    pub fn u16_le(&mut self) -> Option<u16>
        ensures { TakesFromCursor self.old self.new result (le_at w16 self.old.left) }
    {
        let piece = self.take(2)?;
        Some(LittleEndian::read_u16(piece))
    }

    /// The next 4 bytes as a number, the lowest first.
    pub fn u32_le(&mut self) -> Option<u32>
        ensures { TakesFromCursor self.old self.new result (le_at w32 self.old.left) }
    {
        let piece = self.take(4)?;
        Some(LittleEndian::read_u32(piece))
    }

    /// The next 8 bytes as a number, the lowest first.
    pub fn u64_le(&mut self) -> Option<u64>
        ensures { TakesFromCursor self.old self.new result (le_at w64 self.old.left) }
    {
        let piece = self.take(8)?;
        Some(LittleEndian::read_u64(piece))
    }

    /// The next number below 2^64 in its shortest LEB128 spelling, which has at most 10 bytes. None where
    /// no such spelling is at the front.
    #[inline(always)]
    pub fn short_u64(&mut self) -> Option<u64>
        ensures taken { TakesFromCursor self.old self.new result (short_at self.old.left) }
        ensures spelled { IfSome result (λ n. BeginsSpelling IsShort self.old.left n self.new.left) }
        ensures only { IfSome result (λ n. OnlySpellingBegins IsShort self.old.left n self.new.left) }
        ensures none { IfNone result (NoSpellingBegins IsShort self.old.left) }
    {
        let (number, rest) = short(self.rest)?;
        self.at += self.rest.len() - rest.len();
        self.rest = rest;
        Some(number)
    }

    /// The next number of 32 bits in LEB128, as the WebAssembly standard has it (version 1.0, section
    /// 5.2.2): at most 5 bytes, which may be more than the number needs. None where no such spelling
    /// is at the front.
    pub fn leb_u32(&mut self) -> Option<u32>
        ensures taken { TakesFromCursor self.old self.new result (unsigned_at (2 ^ 32) self.old.left) }
        ensures spelled { IfSome result (λ n. BeginsSpelling (IsUnsigned (2 ^ 32)) self.old.left n self.new.left) }
        ensures only { IfSome result (λ n. OnlySpellingBegins (IsUnsigned (2 ^ 32)) self.old.left n self.new.left) }
        ensures none { IfNone result (NoSpellingBegins (IsUnsigned (2 ^ 32)) self.old.left) }
    {
        let (number, rest) = unsigned(self.rest, 1 << 32)?;
        self.at += self.rest.len() - rest.len();
        self.rest = rest;
        Some(number)
    }

    /// The next signed number of 32 bits in LEB128 (section 5.2.2): at most 5 bytes.
    pub fn leb_s32(&mut self) -> Option<i32>
        ensures taken { TakesFromCursor self.old self.new result (signed_at (2 ^ 31) self.old.left) }
        ensures spelled { IfSome result (λ z. BeginsSpelling (IsSigned (2 ^ 31)) self.old.left z self.new.left) }
        ensures only { IfSome result (λ z. OnlySpellingBegins (IsSigned (2 ^ 31)) self.old.left z self.new.left) }
        ensures none { IfNone result (NoSpellingBegins (IsSigned (2 ^ 31)) self.old.left) }
    {
        let (number, rest) = signed(self.rest, 1 << 31)?;
        self.at += self.rest.len() - rest.len();
        self.rest = rest;
        Some(number as i32)
    }

    /// The next signed number of 64 bits in LEB128 (section 5.2.2): at most 10 bytes.
    pub fn leb_s64(&mut self) -> Option<i64>
        ensures taken { TakesFromCursor self.old self.new result (signed_at (2 ^ 63) self.old.left) }
        ensures spelled { IfSome result (λ z. BeginsSpelling (IsSigned (2 ^ 63)) self.old.left z self.new.left) }
        ensures only { IfSome result (λ z. OnlySpellingBegins (IsSigned (2 ^ 63)) self.old.left z self.new.left) }
        ensures none { IfNone result (NoSpellingBegins (IsSigned (2 ^ 63)) self.old.left) }
    {
        let (number, rest) = signed(self.rest, 1 << 63)?;
        self.at += self.rest.len() - rest.len();
        self.rest = rest;
        Some(number)
    }
}
