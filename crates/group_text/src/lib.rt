//! How a group is shown at a position: its events, the position itself, how a process stands and where it runs each
//! of its threads, and the frames of a thread.
//!
//! Contracts see a text as its bytes, and each text is one definition of `specs/Texts` over the place of the group
//! (`GroupPlace` of group_state) or the state of a process. A call says which bytes it appends; where memory runs out, it says
//! nothing of the text.
#![tactic(auto)]

mod event;
mod frames;

pub use event::{push_event_line, push_event_of, push_position, push_process, push_process_named};
pub use frames::push_frames;
