//! `streams MODULE LOG ..`: the byte streams that the processes of a group sent each other.
//!
//! `streams` reads the modules and logs (`log_pairs`), walks the events of all in their order, and tells each send into the
//! group and each datagram with a tag that was taken to `byte_streams`. Contracts see the outcome over the files
//! (`streams_outcome` of `specs/Streams`): a text over the traffic of all events, or the stop. The law `streams_work` says that
//! each group's files have work, and `streams_at_positions` which events brought the bytes that are read at each position of the order
//! (`specs/Positions`).
//!
//! It tells byte_streams what each event sent or took (`traffic_of_events` of `specs/Streams`), counts what is strange, and
//! puts the text together. Inside are the meanings of the code's own values (`specs/inside/Meanings`).
#![tactic(auto)]

pub mod laws;
mod printing;
mod telling;
mod walking;

pub use walking::streams;
