// The numbers and names that the fields of a line write.
ghost use Rattle.std.specs.Prelude.{◌≡◌, ◌≤◌, IfOk, IfSome};
ghost use Rattle.std.specs.List.{list_all};
ghost use Rattle.schedule_text.specs.Reading.{number_up_to, positive_of, process_number_of, times_of};
ghost use Rattle.schedule_text.specs.Schedule.{is_module_name as is_module_word, is_visible};
ghost use Rattle.fri_text.specs.Hex.{hex_of};

use crate::fields::Fields;
use crate::limits::MOST_RUNS;
use fri_bytes::Bytes;
use fri_text::{TextError, read_decimal, read_hex};
use std::alloc::{AllocError, Global};

/// The number that the word writes, where it is at most `most`.
pub(crate) fn number(word: &[u8], most: u32) -> Option<u32>
    ensures value { result ≡ number_up_to most word.now }
    ensures bound { IfSome result (λ n. n ≤ most) }
{
    let number = read_decimal(word, u64::from(most)).ok()?;
    u32::try_from(number).ok()
}

/// The number from 1 on that the word writes, where it is at most `most`.
pub(crate) fn positive(word: &[u8], most: u64) -> Option<u64>
    ensures value { result ≡ positive_of most word.now }
    ensures bound { IfSome result (λ n. n ≤ most) }
{
    let number = read_decimal(word, most).ok()?;
    (number != 0).then_some(number)
}

/// The number of a process that the word writes, where there are so many processes.
pub(crate) fn process_number(word: &[u8], processes: u32) -> Option<u32>
    ensures { result ≡ process_number_of processes word.now }
{
    let last = processes.checked_sub(1)?;
    number(word, last)
}

/// How often a run item tries, from the fields after its thread.
pub(crate) fn times(fields: &mut Fields) -> Option<u32>
    ensures { result ≡ times_of fields.old }
{
    let Some(word) = fields.next_field() else {
        return Some(1);
    };
    if fields.next_field().is_some() {
        return None;
    }
    let times = positive(word, MOST_RUNS)?;
    u32::try_from(times).ok()
}

/// The bytes that the word writes.
pub(crate) fn bytes(alloc: Global, word: &[u8]) -> Result<Option<Bytes>, AllocError>
    ensures { IfOk result (λ bytes. bytes ≡ hex_of word.now) }
{
    match read_hex(alloc, word) {
        Ok(bytes) => Ok(Some(bytes)),
        Err(TextError::NoMemory) => Err(AllocError),
        Err(_) => Ok(None),
    }
}

/// Whether the word may name a module's file.
pub fn is_module_name(word: &[u8]) -> bool
    ensures { result ≡ is_module_word word.now }
{
    !word.is_empty()
        && word.len() <= 255
        && are_visible(word)
        && !word.ends_with(b".log")
        && !word.ends_with(b".mem")
        && !word.ends_with(b".out")
}

fn are_visible(bytes: &[u8]) -> bool
    ensures { result ≡ list_all is_visible bytes.now }
{
    bytes.iter().all(|b| matches!(b, b'!'..=b'~'))
}
