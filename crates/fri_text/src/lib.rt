//! Words, numbers, names and lines in bytes, and text that is put together from them.
//!
//! `read_decimal`, `read_signed`, `read_hex`, `is_name` and `next_line` read; `Text` writes. Contracts see words and text as
//! lists of bytes. Each reader gives exactly what its definition computes (`specs/Decimal`, `specs/Hex`, `specs/Name`,
//! `specs/Line`), or says why there is nothing to give. What is added to a text is added whole, or, without memory, not at
//! all. The law `words_read_back` says that a number and bytes are read from the words that writing them gives, and
//! `exact_hex` which words write bytes.
#![tactic(auto)]

mod error;
mod hex_word;
pub mod laws;
mod line;
mod text;
mod word;

pub use error::TextError;
pub use hex_word::read_hex;
pub use line::next_line;
pub use text::Text;
pub use word::{is_name, read_decimal, read_signed};
