//! `migrate LOG NEW`: a log in the newer form.
//!
//! `migrate` reads a log of either version and makes a file that has the same head and the same entries in version 2, and
//! nothing after them. Contracts see the outcome over the files (`migrate_outcome` of `specs/Migrate`): the text and the new
//! file, or the stop. The law `migrations_keep` says that the new file is read as the same log, and `migrations_work` that a
//! log whose newer form is within the limit has work (`specs/Valid`). Inside is what was made ready (`specs/inside/Meanings`).
#![tactic(auto)]

pub mod laws;
mod making;
mod newer;

pub use making::migrate;
