//! `schedule MODULE LOG ..`: a schedule that records to the logs of a group.
//!
//! `schedule` reads the modules and logs (`log_pairs`), holds them to be those of all processes of one group, and prints the
//! schedule (`schedule_back`). Contracts see the outcome over the files (`schedule_outcome` of `specs/Schedule`): the text, or the
//! stop. What was printed records to these logs again, wherever a file holds it and the modules stand (`RecordsToLogs` of
//! `specs/Laws`); the law `schedules_work` says which files have work.
//!
//! It puts the inputs before schedule_back, and finds the file that goes with a refusal. `RecordsToLogs` says of the files,
//! in whatever folder the text and the modules lie, what the law `records_back` says of all logs.
#![tactic(auto)]

pub mod laws;
mod making;

pub use making::schedule;
