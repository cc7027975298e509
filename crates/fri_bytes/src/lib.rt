//! Bytes: an owned list of them, a cursor that reads from their front, and the calls that append numbers to them, of a fixed
//! width or in the shortest LEB128 spelling.
//!
//! Contracts see `Bytes` as the list of its bytes, and a `Cursor` as the bytes that are left and how many were taken
//! (`specs/Reading`). A reader takes a value from the front, as its definition says (`specs/Reading`, `specs/Leb`,
//! `specs/Short`), or answers None and leaves the cursor as it was. What is appended is added whole, or, without memory, not
//! at all. The law `exact_readers` says that each reader finds exactly what is spelled at the front of the bytes, and that
//! fixed and short numbers are read back as they were written.
#![tactic(auto)]

mod bytes;
mod cursor;
pub mod laws;
mod leb;
mod put;
mod short;

pub use bytes::Bytes;
pub use cursor::Cursor;
pub use put::{put_byte, put_bytes, put_u16, put_u32, put_u64};
pub use short::{put_short, short_length};
