//! The logs of a group, replayed together: the state of each process after the first events of all, by clock and then by
//! process; what is said of the whole; and what the processes leave.
//!
//! Contracts see a `Group` as the replays at position 0 and a position (`specs/Place`), so that no answer depends on how the
//! group came there. `forward` and `goto` move it (`specs/Moves`), and the calls that show it give what its states say; as a
//! `View` of `watch_expr` and a `TouchView` of `page_watch` it shows its nodes (`specs/Nodes`), and the last position at which
//! an event touched each place (`specs/Touch`). A `Reporter` says what came of each log and counts datagrams (`specs/Report`,
//! `specs/Tally`). The laws `ordered` and `stepwise` say that sends come before receives in the order, and what one event
//! changes.
//!
//! Positions follow the order of group_order, over the events that each log's replay accepts (`entries_ahead` of
//! proc_replay). That the one list sorted by clock and node is this order, and that sends come first in it (`ordered`),
//! rests on the laws `merges`, `rises` and `states_fit` of the crates below. What an event changes (`stepwise`) takes the
//! states of all nodes from a position to the next.
//!
//! Inside, a group has a stand (`Stand`: the replays after so many events, how many those are, and the last) where it is,
//! and copies of earlier stands to go back to, its checkpoints (`Checkpoints`). The replays at position 0 are the first of
//! at most 8. `forward` makes a further one at each multiple of a stride that has none. The stride is 256 events at first;
//! when there would be a ninth checkpoint it doubles, and those that are no multiples of it go. `goto` replays from where
//! the group is or from the last checkpoint that is not past its target, whichever is nearer, so that going back costs at
//! most one stride. For a target past the end it goes to the end, and back to where it was in the same way. The invariant
//! (`IsSoundGroup` of `specs/inside/At`) says of each stand that it is the one of its position (`IsStand` of
//! `specs/inside/Stands`), so a checkpoint whose memory is of another position is refused; how many there are and how far
//! apart is in no clause. A checkpoint has no `Merge`: it is made anew from the heads of at most 16 replays (`merge_of`). A
//! replay keeps what its next turn gives, so that the clock which the order asks for costs nothing: each entry is read and
//! judged once. The `Motions` of group_order are the positions at which nodes had their events (`specs/inside/Motions`). An event
//! takes the replay of its node, which is gone after want of memory there: a group then drops its logs (`no_logs`).
//!
//! A report (`Reporter`) is of the replays before their first events, and needs no order and no group, which would copy
//! each process to go back to. It follows log after log to its end, so that no log's verdict depends on another. With the end
//! of a log at hand it gives the image of what the process leaves, so that each log is replayed once, and one image is kept at
//! a time. It counts sends and receives in a `Tally`, which finds sends by `SendIndex` of group_order (`specs/Tally` says what
//! is counted, `specs/inside/Tallying` how a tally grows).
#![tactic(auto)]

mod checkpoints;
mod event;
mod forward;
mod group;
mod image;
pub mod laws;
mod one_replay;
mod report;
mod stand;
mod tally;
mod verdicts;
mod view;
mod work;

pub use event::GroupEvent;
pub use group::Group;
pub use image::Image;
pub use report::{Report, ReportLine, Reporter};
pub use view::signed_global;
pub use work::Work;
