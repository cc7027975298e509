// What single tokens of a command are, and the expression after its verb.
ghost use Rattle.std.specs.Prelude.{◌≡◌, ◌<◌, ◌^◌, bytes_eq, length, option_map, position};
ghost use Rattle.call_table.specs.Table.{kind_named};
ghost use Rattle.shell_lines.specs.Lines.{calls_named, condition_from, count_or, ends_at, expression_before, expression_from, node_named, number_from, scope_named, token_at, variable_at};
ghost use Rattle.shell_lines.specs.Reads.{ReadsAs};
ghost use Rattle.shell_lines.specs.inside.Reading.{ReadsCommand};
ghost use Rattle.shell_lines.specs.Spelled.{command, condition, scope};
ghost use Rattle.expression_text.specs.Lexing.{token_texts};
ghost use Rattle.expression_text.specs.Expression.{expression_of};

use crate::command::{DebuggerCommand, WhichNodes};
use fri_bytes::Bytes;
use lib_calls::Kind;
use std::alloc::Global;
use watch_expr::{Expr, ExprError, Tokens, find_name, is_word, parse};

/// The number that token n is, from the least to the most.
pub fn read_number(tokens: &Tokens<'_>, n: usize, least: u64, most: u64) -> Result<u64, ExprError>
    ensures { ReadsAs (λ v. v) tokens.now (token_at (number_from least most) (token_texts tokens.now) n) result }
{
    match tokens.number(n) {
        Some(number) if least <= number && number <= most => Ok(number),
        _ => Err(ExprError::Syntax(tokens.column(n))),
    }
}

/// The count after the verb, where there is one.
pub(crate) fn read_count(
    tokens: &Tokens<'_>,
    least: u64,
    most: u64,
    absent: u64,
) -> Result<u64, ExprError>
    ensures { ReadsAs (λ v. v) tokens.now (count_or least most absent (token_texts tokens.now)) result }
{
    if tokens.count() <= 1 {
        Ok(absent)
    } else {
        read_number(tokens, 1, least, most)
    }
}

/// The node that token n names, if it is a word.
pub fn read_node(tokens: &Tokens<'_>, n: usize, names: &[Bytes]) -> Result<Option<u32>, ExprError>
    requires { length names.now < 2 ^ 32 }
    ensures { ReadsAs (λ v. v) tokens.now (token_at (node_named names.now) (token_texts tokens.now) n) result }
{
    match tokens.text(n) {
        Some(text) if is_word(text) => Ok(place_of(text, names)),
        _ => Err(ExprError::Syntax(tokens.column(n))),
    }
}

/// Which nodes token n is for: a star is for all, and a word for the one that it names.
pub(crate) fn read_scope(
    tokens: &Tokens<'_>,
    n: usize,
    names: &[Bytes],
) -> Result<WhichNodes, ExprError>
    requires { length names.now < 2 ^ 32 }
    ensures { ReadsAs scope tokens.now (token_at (scope_named names.now) (token_texts tokens.now) n) result }
{
    let place = tokens.text(n).and_then(|text| scope_named(text, names));
    place.ok_or(ExprError::Syntax(tokens.column(n)))
}

fn scope_named(text: &[u8], names: &[Bytes]) -> Option<WhichNodes>
    requires { length names.now < 2 ^ 32 }
    ensures { option_map scope result ≡ scope_named names.now text.now }
{
    if text == b"*".as_slice() {
        return Some(WhichNodes::Everywhere);
    }
    if is_word(text) {
        return Some(WhichNodes::At(place_of(text, names)));
    }
    None
}

/// The kind of call that token n names; a star is for all of them.
pub(crate) fn read_calls(tokens: &Tokens<'_>, n: usize) -> Result<Option<Kind>, ExprError>
    ensures { ReadsAs (λ v. v) tokens.now (token_at calls_named (token_texts tokens.now) n) result }
{
    let calls = tokens.text(n).and_then(calls_named);
    calls.ok_or(ExprError::Syntax(tokens.column(n)))
}

fn calls_named(text: &[u8]) -> Option<Option<Kind>>
    ensures { result ≡ calls_named text.now }
{
    if text == b"*".as_slice() {
        return Some(None);
    }
    match Kind::from_name(text) {
        Some(kind) => Some(Some(kind)),
        None => None,
    }
}

// Which of the names this is.
fn place_of(text: &[u8], names: &[Bytes]) -> Option<u32>
    requires { length names.now < 2 ^ 32 }
    ensures { result ≡ position (λ name. bytes_eq name text.now) names.now }
{
    let place = find_name(names, text)?;
    Some(place as u32)
}

/// The variable that token n and the one after it name: a dollar and a word.
pub(crate) fn read_variable(
    alloc: Global,
    tokens: &Tokens<'_>,
    n: usize,
) -> Result<Bytes, ExprError>
    ensures { ReadsAs (λ v. v) tokens.now (variable_at (token_texts tokens.now) n) result }
{
    if tokens.text(n) != Some(b"$".as_slice()) {
        return Err(ExprError::Syntax(tokens.column(n)));
    }
    match tokens.text(n + 1) {
        Some(text) if is_word(text) => Ok(Bytes::from_slice(alloc, text)?),
        _ => Err(ExprError::Syntax(tokens.column(n + 1))),
    }
}

/// The expression that all tokens from this one on are.
pub fn read_expression(
    alloc: Global,
    tokens: &Tokens<'_>,
    from: usize,
    names: &[Bytes],
) -> Result<Expr, ExprError>
    requires { length names.now < 2 ^ 32 }
    ensures { ReadsAs expression_of tokens.now (expression_from names.now (token_texts tokens.now) from) result }
{
    watch_expr::laws::exact_reading();
    let (expression, next) = parse(alloc, tokens, from, names)?;
    if next < tokens.count() {
        return Err(ExprError::Syntax(tokens.column(next)));
    }
    Ok(expression)
}

/// The expression of as many tokens from this one on as begin one, and the number of the token after it.
pub(crate) fn read_front_expression(
    alloc: Global,
    tokens: &Tokens<'_>,
    from: usize,
    names: &[Bytes],
) -> Result<(Expr, usize), ExprError>
    requires { length names.now < 2 ^ 32 }
    ensures { ReadsAs (λ r. (expression_of r.0, r.1)) tokens.now (expression_before names.now (token_texts tokens.now) from) result }
{
    watch_expr::laws::exact_reading();
    parse(alloc, tokens, from, names)
}

/// The condition that all tokens from this one on are, behind an `if`, or none where there is no token.
pub(crate) fn read_condition(
    alloc: Global,
    tokens: &Tokens<'_>,
    at: usize,
    names: &[Bytes],
) -> Result<Option<Expr>, ExprError>
    requires { length names.now < 2 ^ 32 }
    ensures { ReadsAs condition tokens.now (condition_from names.now (token_texts tokens.now) at) result }
{
    if tokens.count() <= at {
        return Ok(None);
    }
    if tokens.text(at) != Some(b"if".as_slice()) {
        return Err(ExprError::Syntax(tokens.column(at)));
    }
    let condition = read_expression(alloc, tokens, at + 1, names)?;
    Ok(Some(condition))
}

/// The command, where there are no more than so many tokens.
pub(crate) fn ending(
    tokens: &Tokens<'_>,
    n: usize,
    spelled: DebuggerCommand,
) -> Result<DebuggerCommand, ExprError>
    ensures { ReadsCommand tokens.now (ends_at (token_texts tokens.now) n (command spelled)) result }
{
    if tokens.count() <= n {
        Ok(spelled)
    } else {
        Err(ExprError::Syntax(tokens.column(n)))
    }
}
