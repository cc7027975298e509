// Numbers and names that are written in one word.
ghost use Rattle.std.specs.Prelude.{◌≡◌, ◌+◌, ◌*◌, ◌^◌, nat_lt, Some, None, if◌then◌else◌};
ghost use Rattle.std.specs.Char.{is_ascii_digit};
ghost use Rattle.std.specs.List.{list_all};
ghost use Rattle.fri_text.specs.declared.error.TextError.TheVariants.{NotNumber, TooGreat};
ghost use Rattle.fri_text.specs.Name.{is_name as is_name_word, is_name_byte};
ghost use Rattle.fri_text.specs.Decimal.{decimal_of, signed_of, up_to, within_i64};

use crate::error::TextError;

/// The number that the word writes in decimal digits, of which there may be any count, with zeros in
/// front. `NotNumber` comes where the word is empty or has another byte than a digit, and `TooGreat`
/// where the number is above `max`.
pub fn read_decimal(word: &[u8], max: u64) -> Result<u64, TextError>
    ensures { result ≡ up_to max (decimal_of word.now) }
{
    if word.is_empty() {
        return Err(TextError::NotNumber);
    }
    let mut number = 0;
    for byte in word {
        if !byte.is_ascii_digit() {
            return Err(TextError::NotNumber);
        }
        let digit = u64::from(*byte - b'0');
        let Some(longer) = with_digit(number, digit) else {
            return Err(fault_of_long(word));
        };
        number = longer;
    }
    at_most(number, max)
}

// The number with one more digit behind it, if it has 64 bits.
#[inline(always)]
fn with_digit(number: u64, digit: u64) -> Option<u64>
    ensures { result ≡ (if nat_lt (10 * number + digit) (2 ^ 64) then Some (10 * number + digit) else None) }
{
    number.checked_mul(10)?.checked_add(digit)
}

// The number, if it is at most `max`.
#[inline(always)]
fn at_most(number: u64, max: u64) -> Result<u64, TextError>
    ensures { result ≡ up_to max (Some number) }
{
    if number <= max {
        Ok(number)
    } else {
        Err(TextError::TooGreat)
    }
}

// Why the word is refused, whose front writes a number of more than 64 bits.
#[cold]
#[inline(never)]
fn fault_of_long(word: &[u8]) -> TextError
    ensures { result ≡ (if list_all is_ascii_digit word.now then TooGreat else NotNumber) }
{
    if are_digits(word) {
        TextError::TooGreat
    } else {
        TextError::NotNumber
    }
}

fn are_digits(bytes: &[u8]) -> bool
    ensures { result ≡ list_all is_ascii_digit bytes.now }
{
    bytes.iter().all(u8::is_ascii_digit)
}

/// The number that the word writes in decimal digits, where one minus may be in front, but no plus.
/// `NotNumber` comes where no digit comes after it or another byte than a digit, and `TooGreat` where
/// an i64 doesn't hold the number.
pub fn read_signed(word: &[u8]) -> Result<i64, TextError>
    ensures { result ≡ within_i64 (signed_of word.now) }
{
    match word.strip_prefix(b"-") {
        Some(digits) => {
            let number = read_decimal(digits, u64::MAX)?;
            0i64.checked_sub_unsigned(number).ok_or(TextError::TooGreat)
        }
        None => {
            let number = read_decimal(word, u64::MAX)?;
            i64::try_from(number).map_err(|_| TextError::TooGreat)
        }
    }
}

/// Whether the word may name something: 1 to 32 bytes of a to z, 0 to 9 and _.
pub fn is_name(word: &[u8]) -> bool
    ensures { result ≡ is_name_word word.now }
{
    !word.is_empty() && word.len() <= 32 && are_name_bytes(word)
}

fn are_name_bytes(bytes: &[u8]) -> bool
    ensures { result ≡ list_all is_name_byte bytes.now }
{
    bytes
        .iter()
        .all(|b| matches!(b, b'a'..=b'z' | b'0'..=b'9' | b'_'))
}
