//! The library calls that a guest imports: the entries that tell the events that answer them, and what they do to the guest's
//! memory.
//!
//! A `Call` is a kind with its arguments, and an `Entry` is what a log tells of one event; an `EntryView` is an entry whose
//! bytes are lent (`entry_of` of `specs/Entry`, which also says which fields a kind has). `good_arguments` and `push_outgoing` give
//! what a call names and sends out of the memory, and `write_back` writes what its answer does (`specs/Effects`). `is_sent`,
//! `is_taken`, `drawn` and `printed` read one entry (`specs/Traffic`). Each gives exactly what its definition says; copies and
//! `write_back` may want memory. Kinds are those of `call_table`. What a call means for a process is said in `guest_process`.
#![tactic(auto)]

mod answer;
mod arguments;
mod entry;
mod memory;
mod traffic;

pub use answer::{NONE_THERE, REFUSED, write_back};
pub use arguments::{good_arguments, is_outgoing, outgoing_length, push_outgoing};
pub use call_table::{Kind, Signature};
pub use entry::{Call, Entry, EntryView};
pub use memory::{memory_bytes, memory_part};
pub use traffic::{drawn, is_sent, is_taken, printed};
