//! Tests of schedules, groups and sessions, through their public calls. They lie in a crate of their own, since a crate with
//! tests is proved twice.
//!
//! They are about what no output shows: how many events a group replays as it goes forwards and backwards (`groups`), how
//! often a session evaluates (`evaluations`), and schedules that are written, which no command does whole (`schedules`).
//! `recorded` is what the first two begin with. What commands print is tested by `friday_cases`. Nothing else is in this crate.
//!
//! An assertion or a `?` costs seconds of proof where a group or a session is at hand. So what these show is taken by
//! functions that assert nothing, as lists of numbers, and asserted where there are only those.
#![tactic(auto)]

#[cfg(test)]
mod evaluations;
#[cfg(test)]
mod groups;
#[cfg(test)]
mod recorded;
#[cfg(test)]
mod schedules;
