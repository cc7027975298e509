//! A process of a guest: its threads, which stand at calls of the library, and the events that answer these calls.
//!
//! Contracts see a `Process` as a `State` (`specs/State`): its module with memory, globals and table, its threads with their
//! pending calls, its locks and handlers, its clock, its count of events, and how it ended. `need` says what an answer depends
//! on (`specs/Answers`), and `advance` gives the state after the event of an entry (`specs/Next`) that can be the next event
//! (`reason` of `specs/Legal`, which is the first condition that fails). Which event the world lets a process have is a
//! definition of its own (`live` of `specs/Live`). The laws `one_event` and `possible` say that these events are the legal ones
//! and that `next` makes their states. The other laws say what holds of each state (`states_fit`) and what each event changes,
//! as that the clock rises (`rises`) and that a lock has one holder (`lock_kept`).
//!
//! The definitions of an event share what a kind of call needs (`need`: the reply and the state with its effects, no answer
//! now, or the world) and what follows an answer (`thread_goes_on` of `specs/GoesOn`: the reply's value, a signal's handler,
//! the burst). `live`, `reason`, which says why an entry can't be the next event, and `next` are built on these and do not
//! mention each other. So it is a theorem that each event of `live` is legal and that `next` makes its state (`one_event`),
//! and that each legal entry is an event of `live` in some world (`possible`). A reply's value is read from the call table,
//! and what an answer writes is `memory_after_answer` of lib_calls for all kinds. `live` does not use that: it takes the
//! datagram or the random bytes from its world (`world_answer`), and says itself what is written of them (`with_given`).
//!
//! The code first does what an answer does apart from the end of a thread (`acted_on_answer` of `specs/inside/Advancing`):
//! it writes, takes or gives back a lock, sets a handler or makes a thread. Then it takes the thread out, which goes on. The
//! kind of its call was found once, for the import of the valid module.
//! `push_end` writes how a process ended, in words (`specs/Ends`): `record`, `replay` and the debugger all print them.
#![tactic(auto)]

mod advance;
mod answer;
mod body;
mod calls;
mod divergence;
mod end;
mod ends;
mod frames;
mod handlers;
pub mod laws;
mod need;
mod process;
mod spawn;
mod threads;
mod verdict;
mod waiting;

pub use answer::is_due;
pub use calls::ends_process;
pub use divergence::Divergence;
pub use end::End;
pub use ends::push_end;
pub use need::Need;
pub use process::Process;
pub use verdict::Verdict;
