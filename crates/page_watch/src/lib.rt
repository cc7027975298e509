//! A watched expression that is evaluated only where an event touched something that it reads.
//!
//! A `TouchView` tells the state at its position, and the last position at which an event touched each place. Contracts
//! see the states at all positions up to its own and the mark of each place, tied by `MarksTell` of `specs/Touch`: what the
//! last event did not touch is as it was just before. Contracts see a `Watch` as its expression with a value and its parts,
//! each with the places that it was read from (`specs/Watched`); it `WatchStands` for a state if these are those of the
//! expression there.
//!
//! `Watches::after_event` is promised to leave each watch standing for the state at the view's position, and to evaluate,
//! which ticks the counter, exactly those of which a place that was read has the position's mark. Of an aggregate it then reads
//! only the nodes at which the event touched something. Whoever moves the view by more than one position makes new watches.
//! Inside is how the places of watches are kept (`specs/inside/Places`).
#![tactic(auto)]

mod again;
mod places;
mod touched;
mod view;
mod watch;
mod watches;

pub use view::TouchView;
pub use watch::is_same_value;
pub use watches::Watches;
