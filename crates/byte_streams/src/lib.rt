//! Byte streams over datagrams: what a group's processes wrote to each and what was read of it.
//!
//! A datagram whose payload is a chunk (`read_chunk`) carries a piece of a stream. `Streams` is told of all sends and receives
//! of a group, one after the other, and keeps of each stream what was written to it and which of its bytes were taken.
//! Contracts see what it keeps (`KeptTraffic` of `specs/Stands`), and say that this stands for the sends and receives so far
//! (`StandsFor`), over the definitions of `specs/Traffic`: which of them count, what was written, and what was read.
//!
//! It knows no logs. `StandsFor` says that what it keeps, the bytes written to each stream, which of them are covered, and
//! the sends that count, represents the whole list of what it was told. Inside is how the code keeps that, step by step
//! (`specs/inside/Keeping`).
#![tactic(auto)]

mod chunk;
pub mod laws;
mod line;
mod mark;
mod send_map;
mod stream;
mod stream_map;
mod streams;

pub use chunk::{Chunk, read_chunk};
pub use line::StreamLine;
pub use mark::PayloadMark;
pub use streams::Streams;
