//! The log of one process: its head, and an entry for each event. It is read without a copy.
//!
//! A log has one of two versions, which says how the numbers of its entries are spelled and nothing else:
//! in version 1 each takes the width of its field, and in version 2 as few bytes as possible, with the
//! clock as what it is above that of the entry before. Heads of both are the same but for the version.
//! Both are read and written; `rewrite` makes a log of version 2 of either. The outgoing bytes of an entry come last, so
//! that `put_before_outgoing` spells an entry while they are elsewhere, and `incoming_in` finds those that came in where
//! they were spelled (`specs/Spelling`).
//!
//! Contracts see a log as its head and what is left of it (`Unread` of specs/Log): the version, the clock of the
//! entry that was read last, and the bytes after that entry. For any bytes after a head of either
//! version `entries_of` is the longest list of entries whose encodings are there, and `rest_of_log` is what
//! follows them. `exact_logs` says that reading gives exactly what is there and that what was
//! written is read back, `entry_by_entry` how one entry more changes it, `rewritten_is_read` the same of `rewrite`, and `no_longer`
//! that version 2 takes no more bytes for the entry of an event.
#![tactic(auto)]

mod entry;
mod fields;
mod head;
pub mod laws;
mod length;
mod limits;
mod log_buf;
mod number;
mod put;
mod rewriting;
mod spelled;
mod version;
mod view;

pub use head::{BadHead, LogHead};
pub use length::entry_length;
pub use limits::MOST_LOG;
pub use log_buf::LogBuf;
pub use put::{put_before_outgoing, put_entry, put_head};
pub use rewriting::rewrite;
pub use spelled::incoming_in;
pub use version::Version;
pub use view::LogView;
