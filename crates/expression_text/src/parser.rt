// Reads an expression, token by token.
ghost use Rattle.std.specs.Prelude.{◌≡◌, ◌<◌, ◌^◌, [], IfOk, length, None};
ghost use Rattle.expression_text.specs.Grammar.{ParsedExpr, left_level};
ghost use Rattle.expression_text.specs.Expression.{expression_of};
ghost use Rattle.expression_text.specs.Spelling.{unary_of};
ghost use Rattle.expression_text.specs.Machine.{More, Opens, begun_by_token, onward_token, at_place, after_operator, close as after_closing, step_wanting_sign, went_only_if, lead_token, is_closed_with, closing as closing_sign, enclose_expression};
ghost use Rattle.expression_text.specs.inside.Frames.{pile_operators, settled_frames, machine_state, TakesToken, GivesStep, FinishesReading, went_of, went_if, LedByToken, ClosesOpening};

use crate::error::ExprError;
use crate::expr::{Binary, Expr, NodeName};
use crate::number::read_number;
use crate::stack::{Frame, Half, Mode, Opening, Step, Went, chains, left_of, settled};
use crate::token::Tokens;
use crate::word::{PlaceWord, is_word, read_agg, read_binary, read_node, read_place, read_unary};
use fri_bytes::Bytes;
use std::alloc::{AllocError, Global};

/// Reads the expression that begins at a token, as far as the tokens go on with some expression, and gives the
/// number of the token after it. The names are those of the nodes, in their order.
pub fn parse(
    alloc: Global,
    tokens: &Tokens,
    from: usize,
    names: &[Bytes],
) -> Result<(Expr, usize), ExprError>
    requires { length names.now < 2 ^ 32 }
    ensures { ParsedExpr names.now tokens.now from result }
{
    let mut frames = Vec::new(alloc);
    let mut mode = Mode::Want;
    let mut at = from;
    while let Some(text) = tokens.text(at) {
        match advance(alloc, names, &mut frames, mode, text)? {
            Step::Next(next) => mode = next,
            Step::Refused(last) => return finish(alloc, tokens, frames, last, at),
        }
        at += 1;
    }
    finish(alloc, tokens, frames, mode, at)
}

fn advance(
    alloc: Global,
    names: &[Bytes],
    frames: &mut Vec<Frame>,
    mode: Mode,
    text: &[u8],
) -> Result<Step, AllocError>
    requires { length names.now < 2 ^ 32 }
    ensures { IfOk result (λ s. TakesToken names.now (machine_state frames.old.items mode) text.now frames.new.items s) }
{
    match mode {
        Mode::Want => want(frames, text),
        Mode::Part(half) => part(alloc, names, frames, half, text),
        Mode::Have(x) => match read_binary(text) {
            Some(op) => operator(alloc, frames, x, op),
            None => close(alloc, frames, x, text),
        },
    }
}

/// The whole expression, if the tokens were one.
fn finish(
    alloc: Global,
    tokens: &Tokens,
    mut frames: Vec<Frame>,
    mode: Mode,
    at: usize,
) -> Result<(Expr, usize), ExprError>
    ensures { FinishesReading tokens.now (machine_state frames.items mode) at result }
{
    match mode {
        Mode::Want => Err(ExprError::Syntax(tokens.column(at))),
        Mode::Part(_) => Err(ExprError::Syntax(tokens.column(at))),
        Mode::Have(x) => {
            let all = settled(alloc, &mut frames, 0, x)?;
            if frames.is_empty() {
                return Ok((all, at));
            }
            Err(ExprError::Syntax(tokens.column(at)))
        }
    }
}

/// Where an operand is wanted.
fn want(frames: &mut Vec<Frame>, text: &[u8]) -> Result<Step, AllocError>
    ensures { IfOk result (λ s. TakesToken [] (machine_state frames.old.items Mode.Want) text.now frames.new.items s) }
{
    match read_number(text) {
        Some(n) => Ok(Step::Next(Mode::Have(Expr::Number(n)))),
        None => Ok(want_operand(frames, text)?),
    }
}

/// Where an operand is wanted and no number stands.
#[tactic(auto, using(crate::proofs::StackPiles::pile_push))]
fn want_operand(frames: &mut Vec<Frame>, text: &[u8]) -> Result<Step, AllocError>
    ensures { IfOk result (λ s. GivesStep (step_wanting_sign (unary_of text.now) (pile_operators [] frames.old.items) text.now)
        (machine_state frames.old.items Mode.Want) frames.new.items s) }
{
    match read_unary(text) {
        Some(op) => {
            frames.push(Frame::Front(op))?;
            Ok(Step::Next(Mode::Want))
        }
        None => Ok(led(frames, begun(text), Mode::Want)?),
    }
}

/// Inside an operand.
fn part(
    alloc: Global,
    names: &[Bytes],
    frames: &mut Vec<Frame>,
    half: Half,
    text: &[u8],
) -> Result<Step, AllocError>
    requires { length names.now < 2 ^ 32 }
    ensures { IfOk result (λ s. TakesToken names.now (machine_state frames.old.items (Mode.Part half)) text.now frames.new.items s) }
{
    let went = continued(alloc, names, half, text)?;
    Ok(led(frames, went, Mode::Part(half))?)
}

/// Goes on with what a token gave, or stays.
#[tactic(auto, using(crate::proofs::StackPiles::pile_push))]
fn led(frames: &mut Vec<Frame>, went: Option<Went>, mode: Mode) -> Result<Step, AllocError>
    ensures { IfOk result (λ s. LedByToken (lead_token (pile_operators [] frames.old.items) (went_if went)) (machine_state frames.old.items mode) frames.new.items s) }
{
    match went {
        Some(Went::More(half)) => Ok(Step::Next(Mode::Part(half))),
        Some(Went::Whole(x)) => Ok(Step::Next(Mode::Have(x))),
        Some(Went::Opens(opening)) => {
            frames.push(Frame::Inside(opening))?;
            Ok(Step::Next(Mode::Want))
        }
        None => Ok(Step::Refused(mode)),
    }
}

/// What a token begins that is no number and no sign in front.
fn begun(text: &[u8]) -> Option<Went>
    ensures { went_if result ≡ begun_by_token text.now }
{
    if let Some(agg) = read_agg(text) {
        return Some(Went::More(Half::Named(agg)));
    }
    if text == b"(".as_slice() {
        return Some(Went::Opens(Opening::Bracket));
    }
    if text == b"$".as_slice() {
        return Some(Went::More(Half::Dollar));
    }
    more_if(text == b"@".as_slice(), Half::At)
}

fn more_if(test: bool, half: Half) -> Option<Went>
    ensures { went_if result ≡ went_only_if test (More half) }
{
    if test { Some(Went::More(half)) } else { None }
}

fn opens_if(test: bool, opening: Opening) -> Option<Went>
    ensures { went_if result ≡ went_only_if test (Opens opening) }
{
    if test {
        Some(Went::Opens(opening))
    } else {
        None
    }
}

/// What a token adds to an operand that has begun.
fn continued(
    alloc: Global,
    names: &[Bytes],
    half: Half,
    text: &[u8],
) -> Result<Option<Went>, AllocError>
    requires { length names.now < 2 ^ 32 }
    ensures { IfOk result (λ went. went_if went ≡ onward_token names.now half text.now) }
{
    match half {
        Half::Dollar => variable(alloc, text),
        Half::At => Ok(named(names, text)),
        Half::Node(node) => Ok(more_if(text == b".".as_slice(), Half::Dotted(node))),
        Half::Dotted(node) => Ok(placed(node, text)),
        Half::Sized(node, width) => Ok(opens_if(
            text == b"[".as_slice(),
            Opening::Load(node, width),
        )),
        Half::GlobalOf(node) => Ok(more_if(text == b"[".as_slice(), Half::Indexing(node))),
        Half::Indexing(node) => Ok(indexed(node, text)),
        Half::Indexed(node, n) => Ok(global(node, n, text)),
        Half::Named(agg) => Ok(opens_if(text == b"(".as_slice(), Opening::Call(agg))),
    }
}

fn variable(alloc: Global, text: &[u8]) -> Result<Option<Went>, AllocError>
    ensures { IfOk result (λ went. went_if went ≡ onward_token [] Half.Dollar text.now) }
{
    if !is_word(text) {
        return Ok(None);
    }
    let name = Bytes::from_slice(alloc, text)?;
    Ok(Some(Went::Whole(Expr::Var(name))))
}

fn named(names: &[Bytes], text: &[u8]) -> Option<Went>
    requires { length names.now < 2 ^ 32 }
    ensures { went_if result ≡ onward_token names.now Half.At text.now }
{
    match read_node(names, text) {
        Some(node) => Some(Went::More(Half::Node(node))),
        None => None,
    }
}

fn placed(node: NodeName, text: &[u8]) -> Option<Went>
    ensures { went_if result ≡ onward_token [] (Half.Dotted node) text.now }
{
    match read_place(text) {
        Some(place) => Some(at(node, place)),
        None => None,
    }
}

fn at(node: NodeName, place: PlaceWord) -> Went
    ensures { went_of result ≡ at_place node place }
{
    match place {
        PlaceWord::Load(width) => Went::More(Half::Sized(node, width)),
        PlaceWord::Global => Went::More(Half::GlobalOf(node)),
        PlaceWord::Clock => Went::Whole(Expr::Clock(node)),
        PlaceWord::Events => Went::Whole(Expr::Events(node)),
        PlaceWord::Size => Went::Whole(Expr::Size(node)),
        PlaceWord::Thread => Went::Whole(Expr::LastThread(node)),
        PlaceWord::Ended => Went::Whole(Expr::HasEnded(node)),
    }
}

fn indexed(node: NodeName, text: &[u8]) -> Option<Went>
    ensures { went_if result ≡ onward_token [] (Half.Indexing node) text.now }
{
    match read_number(text) {
        Some(n) => Some(Went::More(Half::Indexed(node, n))),
        None => None,
    }
}

fn global(node: NodeName, n: u64, text: &[u8]) -> Option<Went>
    ensures { went_if result ≡ onward_token [] (Half.Indexed node n) text.now }
{
    if text == b"]".as_slice() {
        Some(Went::Whole(Expr::Global(node, n)))
    } else {
        None
    }
}

/// After an operand, an operator.
fn operator(alloc: Global, frames: &mut Vec<Frame>, x: Expr, op: Binary) -> Result<Step, AllocError>
    ensures { IfOk result (λ s. GivesStep (after_operator op (settled_frames (left_level op) frames.old.items x))
        (machine_state frames.old.items (Mode.Have x)) frames.new.items s) }
{
    let left = settled(alloc, frames, left_of(op), x)?;
    if chains(frames, op) {
        return Ok(Step::Refused(Mode::Have(left)));
    }
    frames.push(Frame::Left(op, left))?;
    Ok(Step::Next(Mode::Want))
}

/// After an operand, a token that is no operator.
fn close(alloc: Global, frames: &mut Vec<Frame>, x: Expr, text: &[u8]) -> Result<Step, AllocError>
    ensures { IfOk result (λ s. GivesStep (after_closing text.now (settled_frames 0 frames.old.items x))
        (machine_state frames.old.items (Mode.Have x)) frames.new.items s) }
{
    let inner = settled(alloc, frames, 0, x)?;
    match frames.pop() {
        None => Ok(Step::Refused(Mode::Have(inner))),
        Some(Frame::Inside(opening)) => Ok(closed(alloc, frames, inner, opening, text)?),
        Some(Frame::Left(op, y)) => {
            frames.push(Frame::Left(op, y))?;
            Ok(Step::Refused(Mode::Have(inner)))
        }
        Some(Frame::Front(op)) => {
            frames.push(Frame::Front(op))?;
            Ok(Step::Refused(Mode::Have(inner)))
        }
    }
}

/// What was opened and a token after it.
#[tactic(auto, using(crate::proofs::StackPiles::pile_push))]
fn closed(
    alloc: Global,
    frames: &mut Vec<Frame>,
    inner: Expr,
    opening: Opening,
    text: &[u8],
) -> Result<Step, AllocError>
    ensures { IfOk result (λ s. ClosesOpening (record { opening = opening; inner = expression_of inner; below = pile_operators [] frames.old.items })
        text.now frames.new.items s) }
{
    if !is_closed_by(opening, text) {
        frames.push(Frame::Inside(opening))?;
        return Ok(Step::Refused(Mode::Have(inner)));
    }
    Ok(Step::Next(Mode::Have(enclosed(alloc, opening, inner)?)))
}

fn is_closed_by(opening: Opening, text: &[u8]) -> bool
    ensures { result ≡ is_closed_with opening text.now }
{
    text == closing(opening).as_bytes()
}

/// The sign that closes what the opening begins.
fn closing(opening: Opening) -> &'static str
    ensures { result.now ≡ closing_sign opening }
{
    match opening {
        Opening::Bracket | Opening::Call(_) => ")",
        Opening::Load(_, _) => "]",
    }
}

fn enclosed(alloc: Global, opening: Opening, x: Expr) -> Result<Expr, AllocError>
    ensures { IfOk result (λ y. expression_of y ≡ enclose_expression opening (expression_of x)) }
{
    match opening {
        Opening::Bracket => Ok(x),
        Opening::Call(agg) => Ok(Expr::Over(agg, Box::new(alloc, x)?)),
        Opening::Load(node, width) => Ok(Expr::Load(node, width, Box::new(alloc, x)?)),
    }
}
