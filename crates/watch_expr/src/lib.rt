//! The value of the debugger's expressions over the nodes of a group, and what it is read from.
//!
//! `eval` gives the value of an expression (`specs/Value`): a signed number of 64 bits, or undef; `eval_in_event` also knows the
//! node of the event that led to the position. The nodes and the variables
//! are a `View` and a `Scope` of the caller's, which contracts see as a list of nodes and as a function (`specs/View`).
//! `read_parts` and `read_part` give the value part by part, with the places that each is read from (`specs/Parts`,
//! `specs/Reads`): an aggregate at one node after the other, and any other expression as a whole. `value_of_parts` puts them
//! together, and the law `parts_make_up` says that they have the expression's value and places. `reads_tell` says that a value
//! stays if none of its places changed, and `variables_unseen` that the variables do not matter to an expression that names
//! none. `Steps` counts evaluations for whoever makes them. What a line spells is `expression_text`, whose calls, laws and
//! definitions are handed on from here. Inside is the tally of an aggregate (`specs/inside/ValueTally`).
//!
//! `View` and `Scope` are traits, so a group and the commands of a watchpoint hand in their own. Crates whose clauses or
//! proofs speak of the declared types of expression_text, as of an `Expr` or the cases of `ExprError`, have to stand on that
//! crate too.
//!
//! What an expression reads is a list of places: watch pages, globals, clocks and sizes. To read is not `eval` with a list
//! added: an aggregate reads at every node, and `+` reads both its sides, also if one has no value, where `eval` stops.
//! page_watch keeps the parts, and by the law `reads_tell` each stays as it is if none of its places was touched. It keeps the
//! places of several expressions by node, so at an event it looks only at those of the event's node.
#![tactic(auto)]

pub mod laws;
mod parts;
mod reads;
mod steps;
mod value;
mod view;

pub use expression_text::{
    Agg, Binary, Expr, ExprError, Faults, MOST_NUMBER, NodeName, Tokens, Unary, Width, find_faults,
    find_name, is_blank, is_word, lex, parse,
};
pub use parts::{Reading, part_count, read_part, read_parts, value_of_parts};
pub use reads::Place;
pub use steps::Steps;
pub use value::{eval, eval_in_event};
pub use view::{NoVariables, Scope, View};
