// Which event two words name.
ghost use Rattle.std.specs.Prelude.{◌≡◌};
ghost use Rattle.cut_command.specs.Words.{event_number_of, process_of};

use fri_text::read_decimal;
use lamport_tag::MOST_PROCESSES;

const MOST_PROCESS_NUMBER: u64 = MOST_PROCESSES as u64 - 1;

const MOST_EVENT: u64 = (1 << 63) - 1;

/// The process that the word names: a decimal number from 0 to 15.
pub fn process_of(word: &str) -> Option<u32>
    ensures { result ≡ process_of word.now }
{
    let number = read_decimal(word.as_bytes(), MOST_PROCESS_NUMBER).ok()?;
    u32::try_from(number).ok()
}

/// The event of a process that the word names, counted from 1: a decimal number from 1 to 2^63 - 1.
pub fn event_number_of(word: &str) -> Option<u64>
    ensures { result ≡ event_number_of word.now }
{
    let number = read_decimal(word.as_bytes(), MOST_EVENT).ok()?;
    if number == 0 {
        return None;
    }
    Some(number)
}
