//! The order of the events of a group's processes, at which positions each had its own, and the sends among them.
//!
//! Events are ordered by clock, and among equal clocks by node (`order` of `specs/Order`). Contracts see a `Merge` as the
//! clock of the next event of each node, where it has one; it gives the node that comes next (`specs/Heads`). They see
//! `Motions` as the positions of each node's events (`specs/Motions`), and a `SendIndex` as a map from the number and the clock
//! of a sender to the receiver (`specs/Sends`). The law `merges` says of
//! events of any type, whose clocks rise node by node, that the order is the only sorted list that has each node's events in
//! their own order, and that taking the first event of the node that comes next, again and again, makes it; the law
//! `finds_one_more` says what one send more changes.
#![tactic(auto)]

pub mod laws;
mod merge;
mod motions;
mod send_index;

pub use merge::Merge;
pub use motions::Motions;
pub use send_index::SendIndex;
