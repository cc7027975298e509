//! The points of a session, watchpoints and breakpoints: which are held, where each fires, what it does there, and where
//! `continue` and `rcontinue` go.
//!
//! Contracts see `Points` as a list of the points of `specs/Points`. A point fires by the values at two positions of the
//! logs, or by the event between them, and on its condition (`specs/Firing`), as if nothing had come before. A walk is
//! promised to end at the position, with the variables and the text, that `walk_from` of `specs/Walking` gives, or to want
//! memory; a walk back at that of `return_from` of `specs/Returning`. Both evaluate a watchpoint where they begin, and then
//! where an event touched something that it reads (`watched_expressions` of `specs/Watching`, `ticks` of group_state). The
//! law `exact_firing` says at which positions points fire. How many points there may be, and what a line answers that
//! changes them, is said in friday_shell.
//!
//! `treat_points` of `specs/Walking` says what the points do at one position, and `walk_from` how `continue` goes from one
//! to the next. The walk (`walk`) makes a watch of each watchpoint where it begins, and asks all of them together at each
//! further position (`watching`); it holds the values of two positions, and a session keeps none. If no watch evaluated and
//! no breakpoint is held nothing can fire, and nothing else is done there. One function does what the points do at a
//! position (`points_run`), and runs programs by point_programs. A walk back (`back`) goes forward once too, from position 0,
//! since the values before a position are known there only; it keeps what was said last, and then goes there. `specs/Laws`
//! says in plain relations where points fire and both walks end. Inside is what points read at one position
//! (`specs/inside/Reading`).
#![tactic(auto)]

mod back;
mod firing;
pub mod laws;
mod point;
mod points;
mod points_run;
mod walk;
mod watching;

pub use point::Trigger;
pub use points::Points;
