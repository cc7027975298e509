//! The world around the processes of a group: the datagrams on their way, random bytes, wall times, pending signals, and
//! which processes were killed.
//!
//! Contracts see a `World` as the network and the surroundings of each process, and each call as one act on it
//! (`specs/World`): an event takes what its entry says that it took, and sends what it sent; a delivery, bytes from outside, a
//! wall time, random bytes, a signal and a killing add to it. `specs/History` says the same by counting over the list of all
//! acts, which is how the definitions of a recording speak of the world. The law `by_counting` ties the two, and says that each
//! datagram was sent or came from outside, and is taken in its turn. Without memory nothing changes.
#![tactic(auto)]

pub mod laws;
mod surroundings;
mod world;

pub use lossy_net::{Front, SentBytes};
pub use world::World;
