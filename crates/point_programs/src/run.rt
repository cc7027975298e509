// What programs do.
ghost use Rattle.std.specs.Prelude.{◌≡◌, ◌++◌, false, map, IfOk, OnErr, OnOk};
ghost use Rattle.expression_text.specs.Expression.{expression_of};
ghost use Rattle.point_programs.specs.Running.{after_statement, after_statements, is_nonzero, program_setting, program_state, said_item, said_line, value_over, value_word};
ghost use Rattle.point_programs.specs.Tree.{program_body, item_of, statement_of, statements};
ghost use Rattle.point_programs.specs.Variables.{with_value};

use crate::program::{Program, SayItem, Stmt};
use crate::variables::Vars;
use fri_bytes::Bytes;
use fri_text::Text;
use std::alloc::{AllocError, Global};
use watch_expr::{Expr, View, eval_in_event};

/// Appends a value in decimal, or `undef`; and nothing where there is no memory for all of it.
pub fn push_value(text: &mut Text, value: Option<i64>) -> Result<(), AllocError>
    ensures ok { OnOk result (text.new ≡ text.old ++ value_word value) }
    ensures err { OnErr result (text.new ≡ text.old) }
{
    match value {
        Some(number) => text.push_i64(number),
        None => text.push_str("undef"),
    }
}

/// The node of the event that led to a position, and its name.
#[derive(Clone, Copy)]
pub struct EventNode<'a> {
    pub node: Option<u32>,
    pub name: &'a [u8],
}

/// Runs a program over the nodes of a view, where an event of this node led to the position, and tells whether a `stop` was
/// reached. The lines that it says are appended to `out`. After want of memory a part of its effects may be in `vars` and `out`.
pub fn run_program<V: View>(
    alloc: Global,
    p: &Program,
    v: &V,
    by: EventNode<'_>,
    vars: &mut Vars,
    out: &mut Text,
) -> Result<bool, AllocError>
    ensures { IfOk result (λ stopped. after_statements (program_setting (V.nodes v.now) by.entry.node by.entry.name.now) (program_state vars.old out.old false) (program_body p.now)
        ≡ program_state vars.new out.new stopped) }
{
    run_all(alloc, &p.stmts, v, by, vars, out)
}

#[cycle(run)]
fn run_all<V: View>(
    alloc: Global,
    stmts: &[Stmt],
    v: &V,
    by: EventNode<'_>,
    vars: &mut Vars,
    out: &mut Text,
) -> Result<bool, AllocError>
    ensures { IfOk result (λ stopped. after_statements (program_setting (V.nodes v.now) by.entry.node by.entry.name.now) (program_state vars.old out.old false) (statements stmts.now)
        ≡ program_state vars.new out.new stopped) }
{
    for stmt in stmts {
        if run(alloc, stmt, v, by, vars, out)? {
            return Ok(true);
        }
    }
    Ok(false)
}

#[cycle(run)]
fn run<V: View>(
    alloc: Global,
    stmt: &Stmt,
    v: &V,
    by: EventNode<'_>,
    vars: &mut Vars,
    out: &mut Text,
) -> Result<bool, AllocError>
    ensures { IfOk result (λ stopped. after_statement (program_setting (V.nodes v.now) by.entry.node by.entry.name.now) (program_state vars.old out.old false) (statement_of stmt.now)
        ≡ program_state vars.new out.new stopped) }
{
    match stmt {
        Stmt::Set(name, x) => {
            set(alloc, name, x, v, by, vars)?;
            Ok(false)
        }
        Stmt::Say(items) => {
            say(items, v, by, vars, out)?;
            Ok(false)
        }
        Stmt::Stop => Ok(true),
        Stmt::If(x, on_true, on_false) => {
            if is_true(eval_in_event(x, v, vars, by.node)) {
                run_all(alloc, on_true, v, by, vars, out)
            } else {
                run_all(alloc, on_false, v, by, vars, out)
            }
        }
    }
}

fn set<V: View>(
    alloc: Global,
    name: &Bytes,
    x: &Expr,
    v: &V,
    by: EventNode<'_>,
    vars: &mut Vars,
) -> Result<(), AllocError>
    ensures { OnOk result (vars.new ≡ with_value vars.old name.now (value_over (program_setting (V.nodes v.now) by.entry.node by.entry.name.now) vars.old (expression_of x.now))) }
{
    let value = eval_in_event(x, v, vars, by.node);
    vars.set(alloc, name.as_slice(), value)
}

// A line, with its end.
fn say<V: View>(
    items: &[SayItem],
    v: &V,
    by: EventNode<'_>,
    vars: &Vars,
    out: &mut Text,
) -> Result<(), AllocError>
    ensures { OnOk result (out.new ≡ out.old ++ said_line (program_setting (V.nodes v.now) by.entry.node by.entry.name.now) vars.now (map item_of items.now)) }
{
    for item in items {
        push_item(item, v, by, vars, out)?;
    }
    out.push_str("\n")
}

fn push_item<V: View>(
    said: &SayItem,
    v: &V,
    by: EventNode<'_>,
    vars: &Vars,
    out: &mut Text,
) -> Result<(), AllocError>
    ensures { OnOk result (out.new ≡ out.old ++ said_item (program_setting (V.nodes v.now) by.entry.node by.entry.name.now) vars.now (item_of said.now)) }
{
    match said {
        SayItem::Words(bytes) => out.push_bytes(bytes.as_slice()),
        SayItem::Value(x) => push_value(out, eval_in_event(x, v, vars, by.node)),
        SayItem::OfEvent => out.push_bytes(by.name),
    }
}

/// Whether a value is a number other than 0.
pub fn is_true(value: Option<i64>) -> bool
    ensures { result ≡ is_nonzero value }
{
    match value {
        Some(number) => number != 0,
        None => false,
    }
}
