//! The threads of a process and the locks that they hold. A thread's value is of a type of the caller's; it is taken out
//! while the thread runs, and put back where the thread goes on.
//!
//! Contracts see a `Crew` as the list of the threads that were made, each with its value, with its value taken out, or
//! ended, and as a map from each lock that is held to its holder (`specs/Crew`, `specs/Locks`). Each call gives its exact
//! result and the exact crew after it, and without memory nothing changes. There are at most 64 threads, and the locks of a
//! thread that has ended stay held. What a thread does and when it runs is the caller's.
#![tactic(auto)]

mod copy_out;
mod crew;
mod grip;
mod locks;
mod slot;
mod spawn_error;
mod status;

pub use copy_out::CopyOut;
pub use crew::{Crew, MOST_THREADS};
pub use grip::Grip;
pub use spawn_error::SpawnError;
pub use status::Status;
