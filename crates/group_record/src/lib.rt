//! The recording of a group: a schedule is run over a simulated network, and each event's entry is in its process's log
//! before the next event is tried.
//!
//! A run is a list of steps over the first states of a group (`specs/Run`): each item of the schedule acts or is idle, and a
//! try of a thread acts where the world around its process lets it have an event. `run_record` says by this run what it
//! answers and how the files stand at each answer (`specs/Answer`, `specs/Files`): whole logs after the run, and after a
//! fault the logs of a moment, but for a part of one more entry. That is said where the folder tells its files. The laws say
//! what holds at each moment of any run: it stands as its steps say (`beginning`, `standing`), the logs tell the events of
//! their processes (`agreement`), and each datagram taken came from somewhere and in its turn (`delivery`, `taking`).
//!
//! A `LiveGroup` goes on by one try or item at a time and without files (`specs/Live`): it stands where the run of these
//! stands, and tells what the run has of each. Inside, a recorder holds the members of the group, each a process with its log
//! (`specs/inside/Recorded`, `specs/inside/Members`), and so does a live group (`specs/inside/Parts`). No entry of an event
//! is kept: it is spelled at once, with what it sends out straight from the memory, and lent from there.
#![tactic(auto)]

mod answer;
mod begin;
mod error;
mod event;
mod images;
mod items;
pub mod laws;
mod live;
mod logs;
mod member;
mod parts;
mod prints;
mod recorder;
mod run;
mod signals;
mod summary;
mod tried;

pub use error::RecordError;
pub use live::LiveGroup;
pub use run::run_record;
pub use summary::{Summary, SummaryLine};
pub use tried::Tried;
