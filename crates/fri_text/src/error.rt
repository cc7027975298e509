// Why a word isn't what was asked for.

/// Why a word can't be read.
#[derive(Clone, Copy)]
pub enum TextError {
    /// The word isn't a number.
    NotNumber,
    /// The word is a number that is out of range.
    TooGreat,
    /// The word isn't made of hexadecimal digits.
    NotHex,
    /// There is no memory for what was read.
    NoMemory,
}
