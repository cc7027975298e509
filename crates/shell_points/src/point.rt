// What a point is.

use fri_bytes::Bytes;
use lib_calls::Kind;
use point_programs::Program;
use watch_expr::Expr;

/// What a point waits for: a change of an expression's value, or an event of a kind of call or of any, of the node with
/// this number or of any.
#[derive(Drop)]
pub enum Trigger {
    Watch(Expr),
    Break(Option<u32>, Option<Kind>),
}

/// A point, with its number, from 1, the line that made it, what it waits for and on which condition, and the program
/// that is attached to it.
#[derive(Drop)]
pub(crate) struct Point {
    pub(crate) number: u64,
    pub(crate) text: Bytes,
    pub(crate) trigger: Trigger,
    pub(crate) condition: Option<Expr>,
    pub(crate) program: Option<Program>,
}
