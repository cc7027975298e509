//! The files that a group's processes leave, each named by its process and an ending: logs, images, logs that are cut.
//!
//! `process_file` gives the name. `write_file` makes such a file with its bytes, and `write_image` the two files of a process's
//! image: what its memory has, and what it printed (`specs/Images`). Each file is whole or as it was before. So where
//! `write_file` failed nothing changed, and where `write_image` did the first of its files may be made.
//! What follows of files of which the first are made is in `specs/FirstLaws`, for the proofs of whoever makes several.
#![tactic(auto)]

mod naming;
mod writing;

pub use naming::process_file;
pub use writing::{write_file, write_image};
