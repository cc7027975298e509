// What may be wrong with an expression that is of the grammar.
ghost use Rattle.std.specs.Prelude.{◌≡◌, ◌||◌, ◌&&◌, false};
ghost use Rattle.expression_text.specs.Expression.{expression_of};
ghost use Rattle.expression_text.specs.Faulty.{has_aggregate, is_nested, is_of_event, is_unnamed, lacks_node, names_event, names_variable};

use crate::expr::{Expr, NodeName};

/// What may be wrong with an expression that is of the grammar.
#[derive(Clone, Copy)]
pub struct Faults {
    /// An aggregate is in an aggregate.
    pub nested: bool,
    /// A name is that of no node, or `@_` is outside an aggregate.
    pub no_node: bool,
    /// A variable is named.
    pub variable: bool,
    /// The node of the position's event is named.
    pub event: bool,
}

/// Tells what may be wrong with the expression. It takes no memory.
pub fn find_faults(e: &Expr) -> Faults
    ensures nested { result.nested ≡ is_nested (expression_of e.now) }
    ensures no_node { result.no_node ≡ lacks_node false (expression_of e.now) }
    ensures variable { result.variable ≡ names_variable (expression_of e.now) }
    ensures event { result.event ≡ names_event (expression_of e.now) }
{
    faults_in(e, false)
}

const NONE: Faults = Faults {
    nested: false,
    no_node: false,
    variable: false,
    event: false,
};

impl Faults {
    /// Whether a name is that of no node, if no point has led to the position that the expression is asked at: there `@!` is
    /// none.
    pub fn lacks_some_node(self) -> bool
        ensures { result ≡ (self.no_node || self.event) }
    {
        self.no_node || self.event
    }

    /// The faults of either.
    fn or(self, other: Faults) -> Faults
        ensures { result ≡ record {
          nested = self.nested || other.nested;
          no_node = self.no_node || other.no_node;
          variable = self.variable || other.variable;
          event = self.event || other.event;
        } }
    {
        Faults {
            nested: self.nested || other.nested,
            no_node: self.no_node || other.no_node,
            variable: self.variable || other.variable,
            event: self.event || other.event,
        }
    }
}

/// The faults of an expression that is in an aggregate, or in none.
fn faults_in(e: &Expr, inside: bool) -> Faults
    ensures nested { result.nested ≡ ((inside && has_aggregate (expression_of e.now)) || is_nested (expression_of e.now)) }
    ensures no_node { result.no_node ≡ lacks_node inside (expression_of e.now) }
    ensures variable { result.variable ≡ names_variable (expression_of e.now) }
    ensures event { result.event ≡ names_event (expression_of e.now) }
{
    match e {
        Expr::Number(_) => NONE,
        Expr::Var(_) => Faults {
            variable: true,
            ..NONE
        },
        Expr::One(_, x) => faults_in(x, inside),
        Expr::Two(_, x, y) => faults_in(x, inside).or(faults_in(y, inside)),
        Expr::Over(_, x) => Faults {
            nested: inside,
            ..NONE
        }
        .or(faults_in(x, true)),
        Expr::Load(node, _, x) => node_faults(*node, inside).or(faults_in(x, inside)),
        Expr::Global(node, _) => node_faults(*node, inside),
        Expr::Clock(node) => node_faults(*node, inside),
        Expr::Events(node) => node_faults(*node, inside),
        Expr::Size(node) => node_faults(*node, inside),
        Expr::LastThread(node) => node_faults(*node, inside),
        Expr::HasEnded(node) => node_faults(*node, inside),
    }
}

fn node_faults(node: NodeName, inside: bool) -> Faults
    ensures { result ≡ record { nested = false; no_node = is_unnamed inside node; variable = false; event = is_of_event node } }
{
    match node {
        NodeName::Named(Some(_)) => NONE,
        NodeName::Named(None) => Faults {
            no_node: true,
            ..NONE
        },
        NodeName::Each => Faults {
            no_node: !inside,
            ..NONE
        },
        NodeName::OfEvent => Faults {
            event: true,
            ..NONE
        },
    }
}
