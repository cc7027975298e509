//! The least causal past of an event of a group: how much of each log it needs.
//!
//! A family has a length for each log, and is closed where each event within it that took a tag has the event that the tag
//! names within it too, as far as the logs are given. `least_cut` gives the least closed family that holds an event
//! (`least_past` of `specs/Past`, which speaks of all closed families): its code walks the group once, and goes back once over
//! the tags that were taken. The law `fronts_replay` says that logs cut in this way are whole and have the states of before.
//!
//! `least_cut` notes for each tag that was taken which event it asks for, and goes back over these notes from the event. The
//! definition does not follow that way: it is the least of all closed families that hold the event. Inside are the notes
//! (`specs/inside/Asks`).
#![tactic(auto)]

mod asks;
mod clocks;
mod cut;
pub mod laws;
mod refusal;
mod settle;
mod walk;

pub use cut::{Cut, least_cut};
pub use refusal::CutError;
