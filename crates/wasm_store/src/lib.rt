//! What a WebAssembly 1.0 module has as it runs, beside its threads: its memory, globals and table.
//!
//! Contracts see a `Store` as its module, memory, globals with their marks, the mark of the memory's size, and its table
//! (`specs/Store`). `start` makes the one with which a module begins, or says that a segment lies outside (`specs/Start`).
//! Each call reads or changes exactly what its clause says; writes, growth and new values of globals mark what they change
//! with the number of the event that `begin_event` set (`specs/Marks`). `SuitsModule` of `specs/Suits` says that a store
//! fits its module, as the one that `start` gives does. The law `marked` says that what is not marked is as it was. Inside
//! is how the code holds globals, and the store that a module begins with (`specs/inside/Globals`, `specs/inside/Begun`).
#![tactic(auto)]

mod global;
mod handler;
pub mod laws;
mod start;
mod store;

pub use store::{StartError, Store};
