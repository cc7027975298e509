//! `play SCHEDULE`: a recording that is made line by line, without files.
//!
//! `play` reads a schedule and its modules as `record` does (`record_command`), does its items, and then answers the lines that a
//! terminal gives it, each before more is asked for (`conversation`). A line that is an item (`play_lines`) is done over a group
//! that goes on try by try (`LiveGroup` of group_record); other lines show the group as it is. Contracts see a play as its group
//! and the items so far (`PlayState` of `specs/Play`): all that it answers is said of the run of these items, so nothing of how a
//! run goes is defined here. `PlayRun` of `specs/Run` is the promise of the whole call, and the law `played_is_recorded` says that
//! a schedule of the items so far is recorded to the run that was played. Inside is how a group goes on under what is told of it
//! (`specs/inside/Playing`).
//!
//! Under it is `LiveGroup`, above it conversation. Each answer is a function of the run of the items, before and after the
//! line. What a line is, is said in play_lines, by `item_of_line` of schedule_text or by the tokens of the debugger, and
//! that crate knows no group.
#![tactic(auto)]

mod going;
pub mod laws;
mod live_play;
mod playing;
mod seen;
mod session;
mod shown;
mod told;

pub use playing::play;
