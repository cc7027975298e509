// Bytes that are written in one word.
ghost use Rattle.std.specs.Prelude.{◌≡◌};
ghost use Rattle.std.specs.List.{list_all};
ghost use Rattle.hex.specs.Hex.{is_hex_digit};
ghost use Rattle.fri_text.specs.Hex.{GivesHex, are_digits as are_digits_of, hex_of};

use crate::error::TextError;
use fri_bytes::Bytes;
use std::alloc::Global;

/// The bytes that the word writes in hexadecimal digits of either case, two for each, or none where
/// the word is `-`. `NotHex` comes exactly on other words, so where the word is empty too. Memory is
/// asked for only where there are bytes.
pub fn read_hex(alloc: Global, word: &[u8]) -> Result<Bytes, TextError>
    ensures { GivesHex result (hex_of word.now) }
{
    if word == b"-".as_slice() {
        return Ok(Bytes::new(alloc));
    }
    if !are_digits(word) {
        return Err(TextError::NotHex);
    }
    match hex::decode(alloc, word) {
        Ok(bytes) => Ok(Bytes::from_vec(bytes)),
        Err(_) => Err(TextError::NoMemory),
    }
}

/// Whether the word has digits alone, an even number of them, and some.
fn are_digits(word: &[u8]) -> bool
    ensures { result ≡ are_digits_of word.now }
{
    !word.is_empty() && word.len() % 2 == 0 && are_all_digits(word)
}

fn are_all_digits(bytes: &[u8]) -> bool
    ensures { result ≡ list_all is_hex_digit bytes.now }
{
    bytes.iter().all(u8::is_ascii_hexdigit)
}
