// Reads a token of a program, or those of an expression.
ghost use Rattle.std.specs.Prelude.{◌≡◌, ◌+◌, ◌≤◌, ◌<◌, ◌^◌, ◌&&◌, IfOk, IfSome, codes, drop, length, not, option_map, slice_get, true};
ghost use Rattle.std.specs.Option.{option_and_then};
ghost use Rattle.std.specs.Result.{is_ok};
ghost use Rattle.expression_text.specs.Lexing.{token_texts};
ghost use Rattle.expression_text.specs.Expression.{expression_of};
ghost use Rattle.point_programs.specs.inside.Parsed.{SkipsToken, ReadAsTokens};
ghost use Rattle.point_programs.specs.Reading.{before_quote as before_quote_of, after_token, expression, keyword_of, names_event_node, string_of, token_read_as, word_of};

use crate::keyword::{Keyword, keyword_from};
use fri_bytes::Bytes;
use std::alloc::Global;
use watch_expr::{Expr, ExprError, Tokens, is_word, parse};

/// Whether a token has this text.
pub(crate) fn stands(tokens: &Tokens<'_>, at: usize, text: &str) -> bool
    ensures text { result ≡ is_ok (after_token text.now (drop at (token_texts tokens.now))) }
    ensures within { result ≡ true → at < length (token_texts tokens.now) }
    ensures small { result ≡ true → at < 2 ^ 63 }
{
    match tokens.text(at) {
        Some(found) => found == text.as_bytes(),
        None => false,
    }
}

/// The number of the token after one that has to have this text.
pub(crate) fn expect(tokens: &Tokens<'_>, at: usize, text: &str) -> Result<usize, ExprError>
    ensures goes { SkipsToken tokens.now (after_token text.now (drop at (token_texts tokens.now))) result }
    ensures onward { IfOk result (λ next. at ≤ next) }
{
    if stands(tokens, at, text) {
        Ok(at + 1)
    } else {
        Err(ExprError::Syntax(tokens.column(at)))
    }
}

/// Reads a word.
pub(crate) fn read_word(
    alloc: Global,
    tokens: &Tokens<'_>,
    at: usize,
) -> Result<(Bytes, usize), ExprError>
    ensures read { ReadAsTokens (λ b. b) tokens.now (token_read_as word_of (drop at (token_texts tokens.now))) result }
    ensures onward { IfOk result (λ r. at ≤ r.1) }
{
    let Some(word) = word_at(tokens, at) else {
        return Err(ExprError::Syntax(tokens.column(at)));
    };
    let word = Bytes::from_slice(alloc, word)?;
    Ok((word, at + 1))
}

fn word_at<'a>(tokens: &Tokens<'a>, at: usize) -> Option<&'a [u8]>
    ensures word { option_map (λ w. w.now) result ≡ option_and_then word_of (slice_get (token_texts tokens.now) at) }
    ensures small { IfSome result (λ _. at < 2 ^ 63) }
{
    let text = tokens.text(at)?;
    if is_word(text) { Some(text) } else { None }
}

/// Reads the word that begins a statement.
pub(crate) fn read_keyword(tokens: &Tokens<'_>, at: usize) -> Result<(Keyword, usize), ExprError>
    ensures read { ReadAsTokens (λ k. k) tokens.now (token_read_as keyword_of (drop at (token_texts tokens.now))) result }
    ensures onward { IfOk result (λ r. at ≤ r.1) }
{
    let Some(keyword) = keyword_at(tokens, at) else {
        return Err(ExprError::Syntax(tokens.column(at)));
    };
    Ok((keyword, at + 1))
}

fn keyword_at(tokens: &Tokens<'_>, at: usize) -> Option<Keyword>
    ensures keyword { result ≡ option_and_then keyword_of (slice_get (token_texts tokens.now) at) }
    ensures small { IfSome result (λ _. at < 2 ^ 63) }
{
    keyword_from(tokens.text(at)?)
}

/// The bytes between the quotes of a token that is a string.
pub(crate) fn string_at<'a>(tokens: &Tokens<'a>, at: usize) -> Option<&'a [u8]>
    ensures string { option_map (λ b. b.now) result ≡ option_and_then string_of (slice_get (token_texts tokens.now) at) }
    ensures small { IfSome result (λ _. at < 2 ^ 63) }
{
    let (first, rest) = tokens.text(at)?.split_first()?;
    if *first == b'"' {
        before_quote(rest)
    } else {
        None
    }
}

fn before_quote(bytes: &[u8]) -> Option<&[u8]>
    ensures { option_map (λ b. b.now) result ≡ before_quote_of bytes.now }
{
    let (last, front) = bytes.split_last()?;
    if *last == b'"' { Some(front) } else { None }
}

/// Whether the node of the position's event is named there, and no place of it.
pub(crate) fn names_event_node(tokens: &Tokens<'_>, at: usize) -> bool
    ensures named { result ≡ names_event_node (drop at (token_texts tokens.now)) }
    ensures small { result ≡ true → at < 2 ^ 63 }
{
    stands(tokens, at, "@") && is_event(tokens, at + 1)
}

// An exclamation mark, behind which no place follows.
fn is_event(tokens: &Tokens<'_>, at: usize) -> bool
    ensures { result ≡ (is_ok (after_token (codes "!") (drop at (token_texts tokens.now))) && not (is_ok (after_token (codes ".") (drop (at + 1) (token_texts tokens.now))))) }
{
    stands(tokens, at, "!") && !stands(tokens, at + 1, ".")
}

/// Reads an expression, of as many tokens as begin one.
pub(crate) fn read_expression(
    alloc: Global,
    tokens: &Tokens<'_>,
    at: usize,
    names: &[Bytes],
) -> Result<(Expr, usize), ExprError>
    requires { length names.now < 2 ^ 32 }
    ensures read { ReadAsTokens expression_of tokens.now (expression names.now (drop at (token_texts tokens.now))) result }
    ensures onward { IfOk result (λ r. at ≤ r.1) }
{
    watch_expr::laws::exact_reading();
    parse(alloc, tokens, at, names)
}
