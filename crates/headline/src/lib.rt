//! The main theorem: what `record` leaves is what `replay` and `debug` show, of the same modules and those logs alone.
//!
//! `whole_recordings_are_shown` has it for the whole logs of all processes, in any folder and under any names
//! (`specs/Headline`, and `specs/Shown` for what is shown of them). `recordings_are_shown` has it for some of the
//! processes, in whatever order they are named, at any moment of a recording. `left_is_shown` says it of what a call of
//! `record` leaves: the whole run after an answer, and a moment of it wherever the call was stopped after the heads. These
//! are calls that do nothing; the proof puts together the laws of the crates below. What the call of `record` promises is
//! here too (`specs/Promises`), since it promises that.
//!
//! `RecordPromises` is in this crate since what a recording leaves is shown by `replay` and `debug`, and this is the lowest
//! crate above their commands.
#![tactic(auto)]

pub mod laws;
