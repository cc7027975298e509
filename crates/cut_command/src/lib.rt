//! `cut P N MODULE LOG ..`: the least part of the logs of a group that event N of process P needs.
//!
//! `cut` reads the modules and logs (`log_pairs`), finds how much of each the event needs (`causal_cut`), and makes of each
//! log a file with that part, in version 2. Contracts see the outcome over the files (`cut_outcome` of `specs/Cut`): the
//! text and the new files, or the stop. What was made is cut to the least past, and each file replays as its log does
//! (`CutsToPast` of `specs/Laws`); the law `cuts_work` says which files have work, and `process_of` and `event_number_of`
//! (`specs/Words`) read the words that name an event.
//!
//! It puts the inputs before causal_cut, finds the node of the process and the file that goes with a refusal, and writes the
//! prefixes. Inside are the meanings of the code's own values (`specs/inside/Meanings`).
#![tactic(auto)]

mod cutting;
mod fronts;
pub mod laws;
mod past;
mod words;

pub use cutting::cut;
pub use words::{event_number_of, process_of};
