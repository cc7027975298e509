// What may be wrong with a program that is of the grammar.
ghost use Rattle.std.specs.Prelude.{◌≡◌, ◌||◌, false, map};
ghost use Rattle.std.specs.List.{list_any};
ghost use Rattle.expression_text.specs.Faulty.{is_nested, lacks_node};
ghost use Rattle.expression_text.specs.Expression.{expression_of};
ghost use Rattle.point_programs.specs.Faulty.{lacks_names, lacks_item, lacks_one, nests_aggregates, nests_item, nests_one};
ghost use Rattle.point_programs.specs.Tree.{program_body, item_of, statement_of, statements};

use crate::program::{Program, SayItem, Stmt};
use watch_expr::{Expr, find_faults};

/// What may be wrong with a program that is of the grammar.
#[derive(Clone, Copy)]
pub struct ProgramFaults {
    /// An aggregate is in an aggregate.
    pub nested: bool,
    /// A name is that of no node, or `@_` is outside an aggregate.
    pub no_node: bool,
}

/// Tells what may be wrong with the program. It takes no memory.
pub fn program_faults(p: &Program) -> ProgramFaults
    ensures nested { result.nested ≡ nests_aggregates (program_body p.now) }
    ensures no_node { result.no_node ≡ lacks_names (program_body p.now) }
{
    faults_of_all(&p.stmts)
}

const NONE: ProgramFaults = ProgramFaults {
    nested: false,
    no_node: false,
};

impl ProgramFaults {
    /// The faults of either.
    fn or(self, other: ProgramFaults) -> ProgramFaults
        ensures { result ≡ record { nested = self.nested || other.nested; no_node = self.no_node || other.no_node } }
    {
        ProgramFaults {
            nested: self.nested || other.nested,
            no_node: self.no_node || other.no_node,
        }
    }
}

fn faults_of_value(x: &Expr) -> ProgramFaults
    ensures { result ≡ record { nested = is_nested (expression_of x.now); no_node = lacks_node false (expression_of x.now) } }
{
    let faults = find_faults(x);
    ProgramFaults {
        nested: faults.nested,
        no_node: faults.no_node,
    }
}

fn faults_of_item(item: &SayItem) -> ProgramFaults
    ensures { result ≡ record { nested = nests_item (item_of item.now); no_node = lacks_item (item_of item.now) } }
{
    match item {
        SayItem::Words(_) => NONE,
        SayItem::Value(x) => faults_of_value(x),
        SayItem::OfEvent => NONE,
    }
}

fn faults_of_items(items: &[SayItem]) -> ProgramFaults
    ensures nested { result.nested ≡ list_any nests_item (map item_of items.now) }
    ensures no_node { result.no_node ≡ list_any lacks_item (map item_of items.now) }
{
    let mut faults = NONE;
    for item in items {
        faults = faults.or(faults_of_item(item));
    }
    faults
}

/// The faults of statements that follow one another.
#[cycle(faults)]
fn faults_of_all(stmts: &[Stmt]) -> ProgramFaults
    ensures nested { result.nested ≡ nests_aggregates (statements stmts.now) }
    ensures no_node { result.no_node ≡ lacks_names (statements stmts.now) }
{
    let mut faults = NONE;
    for stmt in stmts {
        faults = faults.or(faults_of_one(stmt));
    }
    faults
}

/// The faults of a statement with those inside it.
#[cycle(faults)]
fn faults_of_one(stmt: &Stmt) -> ProgramFaults
    ensures nested { result.nested ≡ nests_one (statement_of stmt.now) }
    ensures no_node { result.no_node ≡ lacks_one (statement_of stmt.now) }
{
    match stmt {
        Stmt::Set(_, x) => faults_of_value(x),
        Stmt::Say(items) => faults_of_items(items),
        Stmt::Stop => NONE,
        Stmt::If(x, on_true, on_false) => {
            let inside = faults_of_all(on_true).or(faults_of_all(on_false));
            faults_of_value(x).or(inside)
        }
    }
}
