// What has been read of an expression, and what waits for its operand.
ghost use Rattle.std.specs.Prelude.{◌≡◌, [], ◌∷◌, IfOk, ◌==◌, ◌&&◌};
ghost use Rattle.expression_text.specs.Grammar.{operator_level, left_level};
ghost use Rattle.expression_text.specs.Expression.{expression_of};
ghost use Rattle.expression_text.specs.Machine.{settle_operators, compares_left};
ghost use Rattle.expression_text.specs.inside.Frames.{pile_operators, pending_of_frame};

use crate::expr::{Agg, Binary, Expr, NodeName, Unary, Width};
use std::alloc::{AllocError, Global};

/// What a bracket opens.
#[derive(Clone, Copy)]
pub(crate) enum Opening {
    Bracket,
    Call(Agg),
    Load(NodeName, Width),
}

/// The beginning of an operand.
#[derive(Clone, Copy)]
pub(crate) enum Half {
    Dollar,
    At,
    Node(NodeName),
    Dotted(NodeName),
    Sized(NodeName, Width),
    GlobalOf(NodeName),
    Indexing(NodeName),
    Indexed(NodeName, u64),
    Named(Agg),
}

/// What a token gives where an operand has begun.
#[derive(Drop)]
pub(crate) enum Went {
    More(Half),
    Whole(Expr),
    Opens(Opening),
}

/// What waits for an operand.
#[derive(Drop)]
pub(crate) enum Frame {
    Left(Binary, Expr),
    Front(Unary),
    Inside(Opening),
}

/// What may come next.
#[derive(Drop)]
pub(crate) enum Mode {
    Want,
    Have(Expr),
    Part(Half),
}

/// A token was taken, or refused.
#[derive(Drop)]
pub(crate) enum Step {
    Next(Mode),
    Refused(Mode),
}

fn level_of(op: Binary) -> u8
    ensures { result ≡ operator_level op }
{
    match op {
        Binary::Or => 0,
        Binary::And => 1,
        Binary::Eq | Binary::Ne | Binary::Lt | Binary::Le | Binary::Gt | Binary::Ge => 2,
        Binary::Add | Binary::Sub => 3,
        Binary::Mul | Binary::Div | Binary::Rem => 4,
    }
}

pub(crate) fn left_of(op: Binary) -> u8
    ensures { result ≡ left_level op }
{
    match op {
        Binary::Eq | Binary::Ne | Binary::Lt | Binary::Le | Binary::Gt | Binary::Ge => 3,
        _ => level_of(op),
    }
}

/// The operators of this level and higher take their operands.
pub(crate) fn settled(
    alloc: Global,
    frames: &mut Vec<Frame>,
    least: u8,
    operand: Expr,
) -> Result<Expr, AllocError>
    ensures { IfOk result (λ x. settle_operators least (pile_operators [] frames.old.items) (expression_of operand) ≡ (pile_operators [] frames.new.items, expression_of x)) }
{
    let mut x = operand;
    while let Some(frame) = frames.pop() {
        match frame {
            Frame::Left(op, y) => {
                if level_of(op) < least {
                    frames.push(Frame::Left(op, y))?;
                    return Ok(x);
                }
                x = Expr::Two(op, Box::new(alloc, y)?, Box::new(alloc, x)?);
            }
            Frame::Front(op) => x = Expr::One(op, Box::new(alloc, x)?),
            Frame::Inside(opening) => {
                frames.push(Frame::Inside(opening))?;
                return Ok(x);
            }
        }
    }
    Ok(x)
}

/// Whether the operator compares what a comparison gives.
pub(crate) fn chains(frames: &Vec<Frame>, op: Binary) -> bool
    ensures { result ≡ (operator_level op == 2 && compares_left (pile_operators [] frames.now.items)) }
{
    match frames.last() {
        Some(frame) => level_of(op) == 2 && is_comparison(frame),
        None => false,
    }
}

fn is_comparison(frame: &Frame) -> bool
    ensures { result ≡ compares_left (pending_of_frame frame.now ∷ []) }
{
    match frame {
        Frame::Left(op, _) => level_of(*op) == 2,
        Frame::Front(_) | Frame::Inside(_) => false,
    }
}
