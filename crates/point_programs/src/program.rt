// Programs that are attached to points.

use fri_bytes::Bytes;
use watch_expr::Expr;

/// What a line says.
#[derive(Drop)]
pub enum SayItem {
    /// A string, without its quotes.
    Words(Bytes),
    /// The value of an expression.
    Value(Expr),
    /// The name of the node of the event at whose position the program runs.
    OfEvent,
}

/// A statement with those inside it.
// It is dropped by recursion. That is fine, since at most 64 brackets are open in a line.
#[derive(Drop)]
pub enum Stmt {
    /// A variable gets the value of an expression.
    Set(Bytes, Expr),
    /// A line is said, its items one after the other.
    Say(Vec<SayItem>),
    /// The whole program ends.
    Stop,
    /// The first part where the value is a number other than 0, and the second one where it is not. That is empty
    /// where there is no `else`.
    If(Expr, Vec<Stmt>, Vec<Stmt>),
}

/// A program: its statements in order.
#[derive(Drop)]
pub struct Program {
    pub stmts: Vec<Stmt>,
}
