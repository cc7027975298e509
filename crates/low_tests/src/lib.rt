//! Tests of the lower crates through their public calls: spellings of numbers and of modules, the outside, datagrams, streams
//! and memories. They lie in a crate of their own, since a crate with tests is proved twice.
//!
//! They are about what no stored run shows: numbers that the standard spells, modules that are put together byte by byte
//! (`modules`) with the bodies of their functions (`bodies`), each object of the outside with a call that fails, datagrams to
//! their own sender, a stream that is read in part, pages that a write stamps, and datagrams and snapshots of which copies would
//! not fit into memory. Nothing else is in this crate.
#![tactic(auto)]

#[cfg(test)]
mod bodies;
#[cfg(test)]
mod bytes;
#[cfg(test)]
mod datagrams;
#[cfg(test)]
mod memories;
#[cfg(test)]
mod modules;
#[cfg(test)]
mod outside;
#[cfg(test)]
mod streams;
