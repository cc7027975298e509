//! The converse of a recording: the schedule that records to the logs of a group.
//!
//! `schedule_back` walks the events of all logs in their order and writes for each what brings it about: the wall time, the
//! random bytes or the datagram that its answer took, its signal, and one try of its thread (`specs/Back`). Logs that are not
//! whole, names that no schedule may have and schedules past the limits are refused (`specs/Outcome`). The law
//! `records_back` says that the run of the schedule has the entries of these logs and no others.
//!
//! The walk goes forward once and adds the lines of each event to a draft (`draft`, `items`); `back` of `specs/Back` says
//! which. At its end the verdicts on the logs are asked for, and the draft is refused or handed out (`text_or_refusal` of
//! `specs/Outcome`). `records_back` (`Converse` of `specs/Laws`) says once for all logs that the run of this schedule makes
//! them again.
#![tactic(auto)]

mod back;
mod draft;
mod items;
pub mod laws;
mod refusal;

pub use back::schedule_back;
pub use refusal::BackError;
