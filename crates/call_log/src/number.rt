// Numbers, as a version of the format spells them.
ghost use Rattle.std.specs.Prelude.{◌≡◌, ◌^◌, ◌<◌, ◌≤◌, ◌++◌, length, take, IfSome, OnErr, OnOk};
ghost use Rattle.std.specs.Int.{w16, w32, w64};
ghost use Rattle.fri_bytes.specs.Short.{short_at};
ghost use Rattle.call_log.specs.inside.Parts.{GivesField};
ghost use Rattle.call_log.specs.Version.{if_below, clock_at, clock_bytes, number_at, number_bytes};

use crate::version::Version;
use fri_bytes::{Cursor, put_short, put_u16, put_u32, put_u64, short_length};
use std::alloc::AllocError;

// The next number of 16 bits.
#[inline(always)]
pub(crate) fn read_u16(cursor: &mut Cursor<'_>, version: Version) -> Option<u16>
    ensures { GivesField result cursor.new (number_at version w16 cursor.old.left) }
{
    match version {
        Version::One => cursor.u16_le(),
        Version::Two => Some(read_below(cursor, 1 << 16)? as u16),
    }
}

// The next number of 32 bits.
#[inline(always)]
pub(crate) fn read_u32(cursor: &mut Cursor<'_>, version: Version) -> Option<u32>
    ensures { GivesField result cursor.new (number_at version w32 cursor.old.left) }
{
    match version {
        Version::One => cursor.u32_le(),
        Version::Two => Some(read_below(cursor, 1 << 32)? as u32),
    }
}

// The next number of 64 bits.
#[inline(always)]
pub(crate) fn read_u64(cursor: &mut Cursor<'_>, version: Version) -> Option<u64>
    ensures { GivesField result cursor.new (number_at version w64 cursor.old.left) }
{
    match version {
        Version::One => cursor.u64_le(),
        Version::Two => cursor.short_u64(),
    }
}

// The next short number, which is below the limit.
#[inline(always)]
fn read_below(cursor: &mut Cursor<'_>, limit: u64) -> Option<u64>
    ensures found { GivesField result cursor.new (if_below limit (short_at cursor.old.left)) }
    ensures small { IfSome result (λ number. number < limit) }
{
    let number = cursor.short_u64()?;
    if number < limit { Some(number) } else { None }
}

// The clock of the next entry, after an entry with the clock `last`.
#[inline(always)]
pub(crate) fn read_clock(cursor: &mut Cursor<'_>, version: Version, last: u64) -> Option<u64>
    ensures { GivesField result cursor.new (clock_at version last cursor.old.left) }
{
    match version {
        Version::One => cursor.u64_le(),
        Version::Two => Some(last.wrapping_add(cursor.short_u64()?)),
    }
}

// Adds a number of 16 bits.
#[inline(always)]
pub(crate) fn put_number_u16(
    out: &mut Vec<u8>,
    version: Version,
    number: u16,
) -> Result<(), AllocError>
    ensures ok { OnOk result (out.new.items ≡ out.old.items ++ number_bytes version w16 number) }
    ensures err { OnErr result (out.new.items ≡ out.old.items) }
{
    match version {
        Version::One => put_u16(out, number),
        Version::Two => put_short(out, u64::from(number)),
    }
}

// Adds a number of 32 bits.
#[inline(always)]
pub(crate) fn put_number_u32(
    out: &mut Vec<u8>,
    version: Version,
    number: u32,
) -> Result<(), AllocError>
    ensures ok { OnOk result (out.new.items ≡ out.old.items ++ number_bytes version w32 number) }
    ensures err { OnErr result (out.new.items ≡ out.old.items) }
{
    match version {
        Version::One => put_u32(out, number),
        Version::Two => put_short(out, u64::from(number)),
    }
}

// Adds a number of 64 bits.
#[inline(always)]
pub(crate) fn put_number_u64(
    out: &mut Vec<u8>,
    version: Version,
    number: u64,
) -> Result<(), AllocError>
    ensures ok { OnOk result (out.new.items ≡ out.old.items ++ number_bytes version w64 number) }
    ensures err { OnErr result (out.new.items ≡ out.old.items) }
{
    match version {
        Version::One => put_u64(out, number),
        Version::Two => put_short(out, number),
    }
}

// Adds the clock of an entry, after an entry with the clock `last`.
#[inline(always)]
pub(crate) fn put_clock(
    out: &mut Vec<u8>,
    version: Version,
    last: u64,
    clock: u64,
) -> Result<(), AllocError>
    ensures ok { OnOk result (out.new.items ≡ out.old.items ++ clock_bytes version last clock) }
    ensures err { OnErr result (out.new.items ≡ out.old.items) }
{
    match version {
        Version::One => put_u64(out, clock),
        Version::Two => put_short(out, clock.wrapping_sub(last)),
    }
}

// How many bytes a number of 16 bits takes.
#[inline(always)]
pub(crate) fn length_u16(version: Version, number: u16) -> u64
    ensures length { result ≡ length (number_bytes version w16 number) }
    ensures small { result ≤ 10 }
{
    match version {
        Version::One => 2,
        Version::Two => short_length(u64::from(number)),
    }
}

// How many bytes a number of 32 bits takes.
#[inline(always)]
pub(crate) fn length_u32(version: Version, number: u32) -> u64
    ensures length { result ≡ length (number_bytes version w32 number) }
    ensures small { result ≤ 10 }
{
    match version {
        Version::One => 4,
        Version::Two => short_length(u64::from(number)),
    }
}

// How many bytes a number of 64 bits takes.
#[inline(always)]
pub(crate) fn length_u64(version: Version, number: u64) -> u64
    ensures length { result ≡ length (number_bytes version w64 number) }
    ensures small { result ≤ 10 }
{
    match version {
        Version::One => 8,
        Version::Two => short_length(number),
    }
}

// How many bytes the clock of an entry takes, after an entry with the clock `last`.
#[inline(always)]
pub(crate) fn length_clock(version: Version, last: u64, clock: u64) -> u64
    ensures length { result ≡ length (clock_bytes version last clock) }
    ensures small { result ≤ 10 }
{
    match version {
        Version::One => 8,
        Version::Two => short_length(clock.wrapping_sub(last)),
    }
}
