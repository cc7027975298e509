//! `debug MODULE LOG ..`: a session of the debugger over the logs of a group.
//!
//! `debug` begins the replays of the logs (`log_pairs`), and holds a conversation (`conversation`) in which the shell
//! (`friday_shell`) answers each line. Contracts see the outcome over the files and the input (`debug_outcome` of `specs/Debug`);
//! `DebugRun` of `specs/Run` is the promise of the whole call, which says how the input was read too.
//! The law `sessions_work` says that valid files and an input within the limit have work, and `sessions_of_one_group` that what a
//! session comes to is a function of the recording.
#![tactic(auto)]

mod debugging;
pub mod laws;
mod session;

pub use debugging::debug;
