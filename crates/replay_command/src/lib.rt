//! `replay [--images] MODULE LOG ..`: the events of a group's logs, made again.
//!
//! `replay` begins the replays of the logs (`log_pairs`), makes the images of what each process leaves where they are asked
//! for, but never in the place of a file that was read, and says what came of each log and of all (`group_state`).
//! Contracts see the outcome over the files (`replay_outcome` of `specs/Report`): the report, the images, and whether a log
//! diverged. The law `replays_work` says that valid files have work. Inside is what is said at the end of a replay
//! (`specs/inside/Ending`).
#![tactic(auto)]

pub mod laws;
mod names;
mod replaying;
mod report;

pub use replaying::replay;
