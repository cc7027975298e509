// The tree of an expression.

use fri_bytes::Bytes;
use std::alloc::{AllocError, Global};

/// The node that a place belongs to: by its number, or none where no node has the name that was given; the node that
/// an aggregate stands at; or the node of the event that led to the position.
#[derive(Clone, Copy)]
pub enum NodeName {
    Named(Option<u32>),
    Each,
    OfEvent,
}

/// An operator with one operand.
#[derive(Clone, Copy)]
pub enum Unary {
    Minus,
    Not,
}

/// An operator with two operands.
#[derive(Clone, Copy)]
pub enum Binary {
    Or,
    And,
    Eq,
    Ne,
    Lt,
    Le,
    Gt,
    Ge,
    Add,
    Sub,
    Mul,
    Div,
    Rem,
}

/// What is made of the values at all nodes.
#[derive(Clone, Copy)]
pub enum Agg {
    Sum,
    Min,
    Max,
    Count,
}

/// How many bits a load reads, and whether they have a sign.
#[derive(Clone, Copy)]
pub enum Width {
    U8,
    U16,
    U32,
    I8,
    I16,
    I32,
    I64,
}

/// An expression.
#[derive(Drop)]
pub enum Expr {
    Number(u64),
    Var(Bytes),
    One(Unary, Box<Expr>),
    Two(Binary, Box<Expr>, Box<Expr>),
    Over(Agg, Box<Expr>),
    Load(NodeName, Width, Box<Expr>),
    Global(NodeName, u64),
    Clock(NodeName),
    Events(NodeName),
    Size(NodeName),
    LastThread(NodeName),
    HasEnded(NodeName),
}

impl Expr {
    ghost use Rattle.std.specs.Prelude.{◌≡◌, IfOk};
    ghost use Rattle.expression_text.specs.Expression.{expression_of};

    /// The same expression, in memory of its own.
    pub fn copy(&self, alloc: Global) -> Result<Expr, AllocError>
        ensures { IfOk result (λ x. expression_of x ≡ expression_of self.now) }
    {
        Ok(match self {
            Expr::Number(n) => Expr::Number(*n),
            Expr::Var(name) => Expr::Var(Bytes::from_slice(alloc, name.as_slice())?),
            Expr::One(op, x) => Expr::One(*op, Box::new(alloc, x.copy(alloc)?)?),
            Expr::Two(op, x, y) => Expr::Two(
                *op,
                Box::new(alloc, x.copy(alloc)?)?,
                Box::new(alloc, y.copy(alloc)?)?,
            ),
            Expr::Over(agg, x) => Expr::Over(*agg, Box::new(alloc, x.copy(alloc)?)?),
            Expr::Load(name, width, x) => Expr::Load(
                *name,
                *width,
                Box::new(alloc, x.copy(alloc)?)?,
            ),
            Expr::Global(name, n) => Expr::Global(*name, *n),
            Expr::Clock(name) => Expr::Clock(*name),
            Expr::Events(name) => Expr::Events(*name),
            Expr::Size(name) => Expr::Size(*name),
            Expr::LastThread(name) => Expr::LastThread(*name),
            Expr::HasEnded(name) => Expr::HasEnded(*name),
        })
    }
}
