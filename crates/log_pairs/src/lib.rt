//! Modules and logs of a group, pair by pair, for the commands that replay.
//!
//! `load_all` reads the files of all pairs, and holds each log against those before it; `begin_all` begins their replays,
//! in order of the processes' numbers, from what was read; `module_file` and `log_file` are the files of one process,
//! and `file_names` those of all.
//! Contracts see the replays that begin from the files of some pairs
//! (`replays_of_pairs` of `specs/Pairs`), or the stop where none begin. `specs/Valid` says which files are those
//! of a group, and the law `opens_groups` that their replays begin.
#![tactic(auto)]

mod finding;
pub mod laws;
mod names;
mod pairs;

pub use finding::{first_log, log_file, module_file};
pub use names::file_names;
pub use pairs::{Loaded, Pair, begin_all, load_all};
