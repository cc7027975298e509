//! `record [--images] SCHEDULE`: runs a group as a schedule says, and makes the log of each process.
//!
//! `record` reads the schedule and the modules that it names, refuses the schedule if a file of its name would be made, has
//! `group_record` run them, and says what came of it.
//! Contracts see the outcome over the files (`record_outcome` of `specs/Expected`): the text, the logs, the images, or the
//! stop. Wherever a recording was stopped its logs are those of a moment of its run (`specs/Agreement`). The laws say that
//! the logs agree with the run, and that valid files have work (`specs/Valid`). What is gathered
//! of the files first is `specs/Gathering`; `play`, which records line by line, gathers the same.
//!
//! It puts the inputs before group_record and the text after it. If the files that the call found spell a schedule and
//! modules with which all its processes begin, the logs that an answer leaves are those of the whole run (law
//! `recordings_leave_logs`). At every status they are those of a moment of the run, except for a prefix of the next entry,
//! or they are whole and a part of the images follows (`moment`). At each moment the logs agree with the run
//! (`recordings_agree`), which rests only on the laws of group_record.
#![tactic(auto)]

mod inputs;
pub mod laws;
mod names;
mod recording;
mod summary;

pub use inputs::{Inputs, gather, refusal_of};
pub use recording::record;
pub use summary::{push_items_line, push_process_line};
