//! The replay of one process from its log, one event at a time.
//!
//! Contracts see a `Replayer` as the head of the log, the state of the process after the events so far, and what of the log is
//! unread (`Replaying` of `specs/Replaying`). Its next turn is the event of the next entry, or that no entry comes next, or
//! that the next entry is not legal, and why (`turn`). `next_event` takes that turn, and at the end and at a divergence it
//! changes nothing and gives the same again; `peek` tells it and wants no memory. `legal` judges an entry by the state of its
//! process. The law `replays` says that turn after turn gives the replay of the log's entries and its verdict (`specs/Course`),
//! and `accepted_no_longer` that these entries take no more bytes in version 2. Inside, the turn that comes next is kept
//! (`specs/inside/Ahead`), so each entry is read and judged once.
#![tactic(auto)]

mod judge;
pub mod laws;
mod replayer;
mod turn;
mod world;

pub use judge::legal;
pub use replayer::Replayer;
pub use turn::Turn;
