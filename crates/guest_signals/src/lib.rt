//! The signals of a process, which are numbered from 1 to 31: the function that handles each one, and the ones that are
//! pending.
//!
//! Contracts see `Handlers` and `Pending` as lists by the signal's number, in which the place of 0 stays empty
//! (`specs/Signals`). Each call gives the exact list after it, and says that no other signal changes. When a signal is
//! delivered, and what its handler does, is said in `guest_process`. Nothing here takes memory.
#![tactic(auto)]

mod handlers;
mod pending;

pub use handlers::Handlers;
pub use pending::Pending;

/// Signals are numbered from 1 to this.
pub const MOST_SIGNAL: u8 = 31;
