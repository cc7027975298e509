// Short numbers, in the shortest spelling of seven bits a byte. Each call goes at most ten bytes deep.
ghost use Rattle.std.specs.Prelude.{◌≡◌, ◌++◌, ◌<◌, ◌≤◌, ◌^◌, length, IfSome, OnOk, OnErr, option_and_then, option_map, take};
ghost use Rattle.fri_bytes.specs.Short.{longer_short as longer_of, short_at, short_bytes, short_within as within_bytes, short_within_at};

use crate::put::{put_byte, put_bytes};
use std::alloc::AllocError;

// The number at the front of the bytes, and the bytes after it.
#[tactic(auto, unfolding(crate::specs::Short::short_at))]
#[inline(always)]
pub(crate) fn short(bytes: &[u8]) -> Option<(u64, &[u8])>
    ensures value { option_map (λ x. (x.0, x.1.now)) result ≡ short_at bytes.now }
    ensures shorter { IfSome result (λ x. length x.1.now ≤ length bytes.now) }
{
    // Most numbers stand in one byte.
    let (first, rest) = bytes.split_first()?;
    if *first < 128 {
        return Some((u64::from(*first), rest));
    }
    longer_short(*first, rest)
}

// The number of a first byte that is not its last and of those after it, which most often are one or two.
fn longer_short(first: u8, bytes: &[u8]) -> Option<(u64, &[u8])>
    requires { 128 ≤ first }
    ensures value { option_map (λ x. (x.0, x.1.now)) result ≡ option_and_then (longer_of first) (short_within_at 9 bytes.now) }
    ensures shorter { IfSome result (λ x. length x.1.now ≤ length bytes.now) }
{
    let (second, rest) = bytes.split_first()?;
    let second = *second;
    if second < 128 {
        return joined(first, u64::from(second), rest);
    }
    let (high, rest) = behind_two(rest)?;
    let (high, rest) = joined(second, high, rest)?;
    joined(first, high, rest)
}

// The number after two bytes, which most often stands in one.
#[inline(always)]
fn behind_two(bytes: &[u8]) -> Option<(u64, &[u8])>
    ensures value { option_map (λ x. (x.0, x.1.now)) result ≡ short_within_at 8 bytes.now }
    ensures shorter { IfSome result (λ x. length x.1.now ≤ length bytes.now) }
{
    let (first, rest) = bytes.split_first()?;
    if *first < 128 {
        return Some((u64::from(*first), rest));
    }
    short_within(bytes, 8)
}

// The number in at most so many of the bytes, and the bytes after it.
fn short_within(bytes: &[u8], most: u32) -> Option<(u64, &[u8])>
    ensures value { option_map (λ x. (x.0, x.1.now)) result ≡ short_within_at most bytes.now }
    ensures shorter { IfSome result (λ x. length x.1.now ≤ length bytes.now) }
{
    if most == 0 {
        return None;
    }
    let (first, rest) = bytes.split_first()?;
    let first = *first;
    if first < 128 {
        return Some((u64::from(first), rest));
    }
    let (high, rest) = short_within(rest, most - 1)?;
    joined(first, high, rest)
}

// Seven bits of the first byte, and above them the number after it, which is not 0 and fits.
#[inline(always)]
fn joined(first: u8, high: u64, rest: &[u8]) -> Option<(u64, &[u8])>
    requires { 128 ≤ first }
    ensures value { option_map (λ x. (x.0, x.1.now)) result ≡ longer_of first (high, rest.now) }
    ensures shorter { IfSome result (λ x. length x.1.now ≤ length rest.now) }
{
    if high == 0 || high >= 1 << 57 {
        return None;
    }
    Some((128 * high + u64::from(first - 128), rest))
}

// Adds the number in its shortest spelling of at most so many bytes, or a first part of that where memory runs out.
fn put_within(out: &mut Vec<u8>, number: u64, most: u32) -> Result<(), AllocError>
    ensures ok { OnOk result (out.new.items ≡ out.old.items ++ within_bytes most number) }
    ensures err { OnErr result (take (length out.old.items) out.new.items ≡ out.old.items) }
{
    if most == 0 {
        return Ok(());
    }
    if number < 128 {
        return put_byte(out, number as u8);
    }
    put_byte(out, 128 + (number % 128) as u8)?;
    put_within(out, number / 128, most - 1)
}

/// Adds the number in its shortest spelling of seven bits a byte.
#[inline(always)]
#[tactic(auto, unfolding(crate::specs::Short::short_bytes))]
pub fn put_short(out: &mut Vec<u8>, v: u64) -> Result<(), AllocError>
    ensures ok { OnOk result (out.new.items ≡ out.old.items ++ short_bytes v) }
    ensures err { OnErr result (out.new.items ≡ out.old.items) }
{
    // Most numbers take one byte.
    if v < 128 {
        return put_byte(out, v as u8);
    }
    put_longer(out, v)
}

// Adds the number, which takes two bytes or more, most often two or three.
#[tactic(auto, using(crate::proofs::ShortNumbers::two_bytes, crate::proofs::ShortNumbers::three_bytes))]
fn put_longer(out: &mut Vec<u8>, number: u64) -> Result<(), AllocError>
    requires { 128 ≤ number }
    ensures ok { OnOk result (out.new.items ≡ out.old.items ++ short_bytes number) }
    ensures err { OnErr result (out.new.items ≡ out.old.items) }
{
    let low = 128 + (number % 128) as u8;
    let high = number / 128;
    if high < 128 {
        return put_bytes(out, &[low, high as u8]);
    }
    if high < 1 << 14 {
        return put_bytes(out, &[low, 128 + (high % 128) as u8, (high / 128) as u8]);
    }
    put_longest(out, number)
}

// Adds the number, whatever it is.
#[tactic(auto, unfolding(crate::specs::Short::short_bytes))]
fn put_longest(out: &mut Vec<u8>, number: u64) -> Result<(), AllocError>
    ensures ok { OnOk result (out.new.items ≡ out.old.items ++ short_bytes number) }
    ensures err { OnErr result (out.new.items ≡ out.old.items) }
{
    let start = out.len();
    if let Err(error) = put_within(out, number, 10) {
        out.truncate(start);
        return Err(error);
    }
    Ok(())
}

// How many bytes the number takes, of at most so many.
fn length_within(number: u64, most: u32) -> u64
    ensures length { result ≡ length (within_bytes most number) }
    ensures some { 1 ≤ most → 1 ≤ result }
    ensures small { result ≤ most }
{
    if most == 0 {
        return 0;
    }
    if number < 128 {
        return 1;
    }
    1 + length_within(number / 128, most - 1)
}

/// How many bytes the shortest spelling of the number takes.
#[inline(always)]
#[tactic(auto, unfolding(crate::specs::Short::short_bytes))]
pub fn short_length(v: u64) -> u64
    ensures length { result ≡ length (short_bytes v) }
    ensures some { 1 ≤ result }
    ensures small { result ≤ 10 }
{
    if v < 128 {
        return 1;
    }
    longer_length(v)
}

// How many bytes a number takes that takes two or more.
#[tactic(auto, using(crate::proofs::ShortNumbers::two_bytes, crate::proofs::ShortNumbers::three_bytes), unfolding(crate::specs::Short::short_bytes))]
fn longer_length(number: u64) -> u64
    requires { 128 ≤ number }
    ensures length { result ≡ length (short_bytes number) }
    ensures some { 1 ≤ result }
    ensures small { result ≤ 10 }
{
    if number < 1 << 14 {
        return 2;
    }
    if number < 1 << 21 {
        return 3;
    }
    length_within(number, 10)
}
