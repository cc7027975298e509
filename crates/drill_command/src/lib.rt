//! `drill N`: a check of the program by itself. A group of four processes hands a number round, N times.
//!
//! The module of the group is made here (`specs/Ring`), and its schedule by `schedule_text`. The group is recorded into
//! files in memory, its logs are replayed, and all positions are walked with a watchpoint. Contracts see what comes of it
//! (`drill_outcome` of `specs/Drill`): five numbers over the run of the schedule, the order of its events, and the firings
//! of the watchpoint. The files and the input of the caller are not touched. The law `fills_no_log` says that each log has
//! room for all of its events. Inside are the results of its parts (`specs/inside/Results`).
#![tactic(auto)]

mod command;
pub mod laws;
mod recording;
mod replays;
mod ring;
mod rounds;
mod text;
mod watching;

pub use command::drill_rounds;
pub use rounds::rounds_of;
