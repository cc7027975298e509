// Reads a program, statement by statement.
ghost use Rattle.std.specs.Prelude.{◌≡◌, ◌≤◌, ◌<◌, ◌^◌, IfOk, codes, drop, length, map};
ghost use Rattle.expression_text.specs.Lexing.{token_texts};
ghost use Rattle.point_programs.specs.Parsing.{ParsedProgram};
ghost use Rattle.point_programs.specs.inside.Parsed.{ReadAsTokens};
ghost use Rattle.point_programs.specs.Reading.{else_part, if_statement, item as item_in, braced_part, program_in, say_statement, separated_items, set_statement, statement as statement_in, statement_by};
ghost use Rattle.point_programs.specs.Tree.{item_of, statement_of, statements};

use crate::faults::program_faults;
use crate::keyword::Keyword;
use crate::program::{Program, SayItem, Stmt};
use crate::token::{
    expect, names_event_node, read_expression, read_keyword, read_word, stands, string_at,
};
use fri_bytes::Bytes;
use std::alloc::Global;
use watch_expr::{ExprError, Tokens};

/// Reads the program that all tokens from one on spell. The names are those of the nodes, in their order. Where they
/// spell none, the answer is Syntax, with the column of the first token that no program could have there, or of the
/// one after the line. Otherwise it is Nested where an aggregate is in an aggregate, and else NoNode where a name
/// is that of no node or `@_` is outside an aggregate.
pub fn parse_program(
    alloc: Global,
    tokens: &Tokens,
    from: usize,
    names: &[Bytes],
) -> Result<Program, ExprError>
    requires { length names.now < 2 ^ 32 }
    ensures { ParsedProgram names.now tokens.now from result }
{
    let levels = tokens.count().saturating_sub(from);
    let (stmts, next) = read_program(alloc, tokens, from, names, levels)?;
    if next < tokens.count() {
        return Err(ExprError::Syntax(tokens.column(next)));
    }
    let program = Program { stmts };
    let faults = program_faults(&program);
    if faults.nested {
        return Err(ExprError::Nested);
    }
    if faults.no_node {
        return Err(ExprError::NoNode);
    }
    Ok(program)
}

/// Statements as far as they go, with braces that nest in less than so many levels.
#[cycle(program)]
fn read_program(
    alloc: Global,
    tokens: &Tokens<'_>,
    at: usize,
    names: &[Bytes],
    levels: usize,
) -> Result<(Vec<Stmt>, usize), ExprError>
    requires { length names.now < 2 ^ 32 }
    ensures read { ReadAsTokens (λ v. statements v.items) tokens.now (program_in levels names.now (drop at (token_texts tokens.now))) result }
    ensures onward { IfOk result (λ r. at ≤ r.1) }
{
    if levels == 0 {
        return Err(ExprError::Syntax(tokens.column(at)));
    }
    read_statements(alloc, tokens, at, names, levels - 1)
}

/// Statements with semicolons between them.
#[cycle(program)]
fn read_statements(
    alloc: Global,
    tokens: &Tokens<'_>,
    from: usize,
    names: &[Bytes],
    levels: usize,
) -> Result<(Vec<Stmt>, usize), ExprError>
    requires { length names.now < 2 ^ 32 }
    ensures read { ReadAsTokens (λ v. map statement_of v.items) tokens.now
        (separated_items (codes ";") (statement_in (program_in levels names.now) names.now) (drop from (token_texts tokens.now))) result }
    ensures onward { IfOk result (λ r. from ≤ r.1) }
{
    let mut stmts = Vec::new(alloc);
    let mut at = from;
    loop {
        let (stmt, next) = read_statement(alloc, tokens, at, names, levels)?;
        stmts.push(stmt)?;
        if !stands(tokens, next, ";") {
            return Ok((stmts, next));
        }
        at = next + 1;
    }
}

/// A statement, with braces inside it that nest in less than so many levels.
#[cycle(program)]
fn read_statement(
    alloc: Global,
    tokens: &Tokens<'_>,
    at: usize,
    names: &[Bytes],
    levels: usize,
) -> Result<(Stmt, usize), ExprError>
    requires { length names.now < 2 ^ 32 }
    ensures read { ReadAsTokens statement_of tokens.now (statement_in (program_in levels names.now) names.now (drop at (token_texts tokens.now))) result }
    ensures onward { IfOk result (λ r. at ≤ r.1) }
{
    let (keyword, next) = read_keyword(tokens, at)?;
    read_statement_by(alloc, tokens, next, names, levels, keyword)
}

/// The statement that the keyword in front begins.
#[cycle(program)]
fn read_statement_by(
    alloc: Global,
    tokens: &Tokens<'_>,
    at: usize,
    names: &[Bytes],
    levels: usize,
    keyword: Keyword,
) -> Result<(Stmt, usize), ExprError>
    requires { length names.now < 2 ^ 32 }
    ensures read { ReadAsTokens statement_of tokens.now (statement_by (program_in levels names.now) names.now keyword (drop at (token_texts tokens.now))) result }
    ensures onward { IfOk result (λ r. at ≤ r.1) }
{
    match keyword {
        Keyword::Set => read_set(alloc, tokens, at, names),
        Keyword::Say => read_say(alloc, tokens, at, names),
        Keyword::Stop => Ok((Stmt::Stop, at)),
        Keyword::If => read_if(alloc, tokens, at, names, levels),
    }
}

fn read_set(
    alloc: Global,
    tokens: &Tokens<'_>,
    at: usize,
    names: &[Bytes],
) -> Result<(Stmt, usize), ExprError>
    requires { length names.now < 2 ^ 32 }
    ensures read { ReadAsTokens statement_of tokens.now (set_statement names.now (drop at (token_texts tokens.now))) result }
    ensures onward { IfOk result (λ r. at ≤ r.1) }
{
    let name_at = expect(tokens, at, "$")?;
    let (name, value_at) = read_word(alloc, tokens, name_at)?;
    let (value, next) = read_expression(alloc, tokens, value_at, names)?;
    Ok((Stmt::Set(name, value), next))
}

fn read_say(
    alloc: Global,
    tokens: &Tokens<'_>,
    at: usize,
    names: &[Bytes],
) -> Result<(Stmt, usize), ExprError>
    requires { length names.now < 2 ^ 32 }
    ensures read { ReadAsTokens statement_of tokens.now (say_statement names.now (drop at (token_texts tokens.now))) result }
    ensures onward { IfOk result (λ r. at ≤ r.1) }
{
    let (items, next) = read_items(alloc, tokens, at, names)?;
    Ok((Stmt::Say(items), next))
}

/// Items with commas between them.
fn read_items(
    alloc: Global,
    tokens: &Tokens<'_>,
    from: usize,
    names: &[Bytes],
) -> Result<(Vec<SayItem>, usize), ExprError>
    requires { length names.now < 2 ^ 32 }
    ensures read { ReadAsTokens (λ v. map item_of v.items) tokens.now (separated_items (codes ",") (item_in names.now) (drop from (token_texts tokens.now))) result }
    ensures onward { IfOk result (λ r. from ≤ r.1) }
{
    let mut items = Vec::new(alloc);
    let mut at = from;
    loop {
        let (item, next) = read_item(alloc, tokens, at, names)?;
        items.push(item)?;
        if !stands(tokens, next, ",") {
            return Ok((items, next));
        }
        at = next + 1;
    }
}

/// A string, the node of the position's event by its name, or the value of an expression.
fn read_item(
    alloc: Global,
    tokens: &Tokens<'_>,
    at: usize,
    names: &[Bytes],
) -> Result<(SayItem, usize), ExprError>
    requires { length names.now < 2 ^ 32 }
    ensures read { ReadAsTokens item_of tokens.now (item_in names.now (drop at (token_texts tokens.now))) result }
    ensures onward { IfOk result (λ r. at ≤ r.1) }
{
    if let Some(words) = string_at(tokens, at) {
        let words = Bytes::from_slice(alloc, words)?;
        return Ok((SayItem::Words(words), at + 1));
    }
    if names_event_node(tokens, at) {
        return Ok((SayItem::OfEvent, at + 2));
    }
    let (value, next) = read_expression(alloc, tokens, at, names)?;
    Ok((SayItem::Value(value), next))
}

#[cycle(program)]
fn read_if(
    alloc: Global,
    tokens: &Tokens<'_>,
    at: usize,
    names: &[Bytes],
    levels: usize,
) -> Result<(Stmt, usize), ExprError>
    requires { length names.now < 2 ^ 32 }
    ensures read { ReadAsTokens statement_of tokens.now (if_statement (program_in levels names.now) names.now (drop at (token_texts tokens.now))) result }
    ensures onward { IfOk result (λ r. at ≤ r.1) }
{
    let (test, true_at) = read_expression(alloc, tokens, at, names)?;
    let (on_true, else_at) = read_part(alloc, tokens, true_at, names, levels)?;
    let (on_false, next) = read_else(alloc, tokens, else_at, names, levels)?;
    Ok((Stmt::If(test, on_true, on_false), next))
}

/// A part in braces.
#[cycle(program)]
fn read_part(
    alloc: Global,
    tokens: &Tokens<'_>,
    at: usize,
    names: &[Bytes],
    levels: usize,
) -> Result<(Vec<Stmt>, usize), ExprError>
    requires { length names.now < 2 ^ 32 }
    ensures read { ReadAsTokens (λ v. statements v.items) tokens.now (braced_part (program_in levels names.now) (drop at (token_texts tokens.now))) result }
    ensures onward { IfOk result (λ r. at ≤ r.1) }
{
    let inside = expect(tokens, at, "{")?;
    let (stmts, end) = read_program(alloc, tokens, inside, names, levels)?;
    let next = expect(tokens, end, "}")?;
    Ok((stmts, next))
}

/// A second part, which may be left out.
#[cycle(program)]
fn read_else(
    alloc: Global,
    tokens: &Tokens<'_>,
    at: usize,
    names: &[Bytes],
    levels: usize,
) -> Result<(Vec<Stmt>, usize), ExprError>
    requires { length names.now < 2 ^ 32 }
    ensures read { ReadAsTokens (λ v. statements v.items) tokens.now (else_part (program_in levels names.now) (drop at (token_texts tokens.now))) result }
    ensures onward { IfOk result (λ r. at ≤ r.1) }
{
    if stands(tokens, at, "else") {
        read_part(alloc, tokens, at + 1, names, levels)
    } else {
        Ok((Vec::new(alloc), at))
    }
}
