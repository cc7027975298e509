//! A simulated network that keeps what the processes of a group sent. A datagram reaches its receiver only where it is
//! delivered, as often as it is delivered, and in the order of the deliveries.
//!
//! Contracts see a `Net` as a list with the traffic of each process: what it sent into the group, the first one first, and the
//! datagrams that wait for it, the next one to be taken first (`specs/Network`). Each call gives the exact network after it;
//! without memory nothing changes. Each datagram that was sent is for a process of the group, which is the type's invariant.
//! When something is delivered, and whether, is the caller's. Inside, the bytes of a datagram are kept once, however often it
//! waits.
#![tactic(auto)]

mod endpoint;
mod net;
mod shared;

pub use net::{Front, Net, SentBytes};
