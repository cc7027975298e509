// Numbers as lines write them.
ghost use Rattle.std.specs.Prelude.{◌≡◌};
ghost use Rattle.std.specs.Char.{is_ascii_hexdigit};
ghost use Rattle.std.specs.List.{list_all};
ghost use Rattle.expression_text.specs.Spelling.{number_of, hex_number_of};

use fri_text::read_decimal;
use std::str;

/// The greatest number that a word is.
pub const MOST_NUMBER: u64 = i64::MAX as u64;

#[tactic(auto, using(crate::proofs::WordNumbers::at_most_up_to), unfolding(crate::specs::Spelling::number_of))]
/// The number that the word is, if it is one: in decimal digits, or in hexadecimal ones after `0x`.
pub(crate) fn read_number(word: &[u8]) -> Option<u64>
    ensures { result ≡ number_of word.now }
{
    match word.strip_prefix(b"0x") {
        Some(digits) => read_hexadecimal(digits),
        None => read_decimal(word, MOST_NUMBER).ok(),
    }
}

fn read_hexadecimal(digits: &[u8]) -> Option<u64>
    ensures { result ≡ hex_number_of digits.now }
{
    if digits.is_empty() || !are_hexadecimal(digits) {
        return None;
    }
    let Ok(text) = str::from_utf8(digits) else {
        return None;
    };
    let Ok(number) = u64::from_str_radix(text, 16) else {
        return None;
    };
    if number > MOST_NUMBER {
        return None;
    }
    Some(number)
}

fn are_hexadecimal(bytes: &[u8]) -> bool
    ensures { result ≡ list_all is_ascii_hexdigit bytes.now }
{
    bytes.iter().all(u8::is_ascii_hexdigit)
}
