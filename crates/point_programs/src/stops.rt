// Whether a program can stop.
ghost use Rattle.std.specs.Prelude.{◌≡◌, ◌||◌};
ghost use Rattle.point_programs.specs.Running.{has_stop, has_stop_in};
ghost use Rattle.point_programs.specs.Tree.{program_body, statement_of, statements};

use crate::program::{Program, Stmt};

/// Whether the program has a `stop` anywhere in it, reached or not. It takes no memory.
pub fn has_stop(p: &Program) -> bool
    ensures { result ≡ has_stop (program_body p.now) }
{
    stops_in(&p.stmts)
}

#[cycle(stops)]
fn stops_in(stmts: &[Stmt]) -> bool
    ensures { result ≡ has_stop (statements stmts.now) }
{
    let mut found = false;
    for stmt in stmts {
        found = found || stops_at(stmt);
    }
    found
}

#[cycle(stops)]
fn stops_at(stmt: &Stmt) -> bool
    ensures { result ≡ has_stop_in (statement_of stmt.now) }
{
    match stmt {
        Stmt::Set(_, _) => false,
        Stmt::Say(_) => false,
        Stmt::Stop => true,
        Stmt::If(_, on_true, on_false) => either(stops_in(on_true), stops_in(on_false)),
    }
}

fn either(first: bool, second: bool) -> bool
    ensures { result ≡ (first || second) }
{
    first || second
}
