// Cuts a line into tokens.
ghost use Rattle.std.specs.Prelude.{◌≡◌, ◌<◌, ◌≤◌, IfSome, length, not, map, position};
ghost use Rattle.expression_text.specs.Lexing.{LexedAs, is_blank as is_blank_byte, is_string_byte as is_byte_of_string, is_sign as is_sign_byte, is_pair as is_pair_of, depth_after, is_too_deep as is_too_deep_list};
ghost use Rattle.expression_text.specs.Front.{longest_token, string_end, sign_at, word_end};

use crate::error::ExprError;
use crate::token::{Token, Tokens};
use crate::word::is_word_byte;
use std::alloc::Global;

const MOST_TOKENS: usize = 512;

const MOST_OPEN: u32 = 64;

/// Cuts the line into tokens. Blanks separate them, and at each other place stands the longest token that
/// begins there.
pub fn lex<'a>(alloc: Global, line: &'a [u8]) -> Result<Tokens<'a>, ExprError>
    requires { length line.now ≤ 4096 }
    ensures { LexedAs line.now result }
{
    let mut tokens = Vec::new(alloc);
    let mut at = 0;
    while at < line.len() {
        let column = at as u32 + 1;
        let rest = &line[at..];
        if is_blank(rest[0]) {
            at += 1;
            continue;
        }
        let Some(length) = token_length(rest) else {
            return Err(ExprError::Syntax(column));
        };
        tokens.push(Token {
            text: &rest[..length],
            column,
        })?;
        at += length;
    }
    if is_too_deep(&tokens) {
        return Err(ExprError::TooDeep);
    }
    Ok(Tokens {
        tokens,
        end: line.len() as u32 + 1,
    })
}

/// How many bytes the longest token has that begins the bytes, if one does.
fn token_length(bytes: &[u8]) -> Option<usize>
    ensures { result ≡ longest_token bytes.now }
{
    let (first, rest) = bytes.split_first()?;
    if is_word_byte(*first) {
        return Some(word_length(bytes));
    }
    if *first == b'"' {
        return string_length(rest);
    }
    sign_length(*first, rest)
}

/// How many bytes of a word stand in front.
fn word_length(bytes: &[u8]) -> usize
    ensures { result ≡ word_end bytes.now }
{
    bytes.iter().take_while(|b| is_word_byte(**b)).count()
}

/// How many bytes the string has whose first quote was taken.
fn string_length(rest: &[u8]) -> Option<usize>
    ensures { result ≡ string_end rest.now }
{
    let end = string_stop(rest)?;
    if rest[end] != b'"' {
        return None;
    }
    Some(end + 2)
}

/// The place of the first byte that is in no string.
fn string_stop(bytes: &[u8]) -> Option<usize>
    ensures stop { result ≡ position (λ b. not (is_byte_of_string b)) bytes.now }
    ensures within { IfSome result (λ n. n < length bytes.now) }
{
    bytes.iter().position(|b| !is_string_byte(*b))
}

fn sign_length(first: u8, rest: &[u8]) -> Option<usize>
    ensures { result ≡ sign_at first rest.now }
{
    if let Some(second) = rest.first()
        && is_pair(first, *second)
    {
        return Some(2);
    }
    if is_sign(first) { Some(1) } else { None }
}

/// Whether the byte is a space or a tab.
pub fn is_blank(b: u8) -> bool
    ensures { result ≡ is_blank_byte b }
{
    b == b' ' || b == b'\t'
}

fn is_string_byte(b: u8) -> bool
    ensures { result ≡ is_byte_of_string b }
{
    matches!(b, b' '..=b'~') && b != b'"'
}

fn is_sign(b: u8) -> bool
    ensures { result ≡ is_sign_byte b }
{
    b"@.[](){},;$+-*/%!<>".contains(&b)
}

/// Whether the two bytes are one sign.
fn is_pair(a: u8, b: u8) -> bool
    ensures { result ≡ is_pair_of a b }
{
    match a {
        b'=' | b'!' | b'<' | b'>' => b == b'=',
        b'&' => b == b'&',
        b'|' => b == b'|',
        _ => false,
    }
}

/// Whether there are too many tokens, or too many brackets are open at once.
fn is_too_deep(tokens: &[Token]) -> bool
    ensures { result ≡ is_too_deep_list (map (λ t. t.text) tokens.now) }
{
    if tokens.len() > MOST_TOKENS {
        return true;
    }
    let mut depth: u32 = 0;
    for token in tokens {
        depth = depth_with(depth, token.text);
        if depth > MOST_OPEN {
            return true;
        }
    }
    false
}

/// How many brackets are open after a token, where at most so many were.
fn depth_with(depth: u32, text: &[u8]) -> u32
    requires { depth ≤ 64 }
    ensures { result ≡ depth_after depth text.now }
{
    match text {
        [b'(' | b'[' | b'{'] => depth + 1,
        [b')' | b']' | b'}'] => depth.saturating_sub(1),
        _ => depth,
    }
}
