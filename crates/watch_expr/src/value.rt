// The value of an expression.
ghost use Rattle.std.specs.Prelude.{◌≡◌};
ghost use Rattle.expression_text.specs.Expression.{expression_of};
ghost use Rattle.watch_expr.specs.Value.{setting_in_event, value, value_at, value_in_event};

pub(crate) mod loads;
pub(crate) mod operators;
pub(crate) mod places;
pub(crate) mod tally;

use crate::value::loads::load;
use crate::value::operators::{decided_by_left, number, two, unary_value};
use crate::value::places::{clock, events, global, has_ended, last_thread, node_of, size};
use crate::value::tally::Tally;
use crate::view::{Scope, View};
use expression_text::Expr;

/// The value of an expression over the nodes of the view and the variables of the scope; `None` stands
/// for undef. It takes no memory.
pub fn eval<V: View, S: Scope>(e: &Expr, v: &V, scope: &S) -> Option<i64>
    ensures { result ≡ value (V.nodes v.now) (S.variables scope.now) (expression_of e.now) }
{
    eval_at(e, v, scope, None, None)
}

/// The same where the event that led to the position is one of this node.
pub fn eval_in_event<V: View, S: Scope>(
    e: &Expr,
    v: &V,
    scope: &S,
    event: Option<u32>,
) -> Option<i64>
    ensures { result ≡ value_in_event (V.nodes v.now) (S.variables scope.now) event (expression_of e.now) }
{
    eval_at(e, v, scope, event, None)
}

// The value where `event` is the node of the position's event, and `each` that of the aggregate around the expression.
#[cycle(eval)]
fn eval_at<V: View, S: Scope>(
    e: &Expr,
    v: &V,
    scope: &S,
    event: Option<u32>,
    each: Option<u32>,
) -> Option<i64>
    ensures { result ≡ value_at (setting_in_event (V.nodes v.now) (S.variables scope.now) event) each (expression_of e.now) }
{
    match e {
        Expr::Number(n) => number(*n),
        Expr::Var(name) => scope.value(name.as_slice()),
        Expr::One(op, x) => {
            let a = eval_at(x, v, scope, event, each)?;
            unary_value(*op, a)
        }
        Expr::Two(op, x, y) => {
            let a = eval_at(x, v, scope, event, each)?;
            match decided_by_left(*op, a) {
                Some(result) => Some(result),
                None => {
                    let b = eval_at(y, v, scope, event, each)?;
                    two(*op, a, b)
                }
            }
        }
        Expr::Over(agg, x) => {
            let mut tally = Tally::start(*agg);
            for node in 0..v.node_count() {
                let a = eval_at(x, v, scope, event, Some(node))?;
                tally = tally.add(a);
            }
            tally.total()
        }
        Expr::Load(name, width, x) => {
            let addr = eval_at(x, v, scope, event, each)?;
            load(v, node_of(event, each, *name), *width, addr)
        }
        Expr::Global(name, n) => global(v, node_of(event, each, *name), *n),
        Expr::Clock(name) => clock(v, node_of(event, each, *name)),
        Expr::Events(name) => events(v, node_of(event, each, *name)),
        Expr::Size(name) => size(v, node_of(event, each, *name)),
        Expr::LastThread(name) => last_thread(v, node_of(event, each, *name)),
        Expr::HasEnded(name) => has_ended(v, node_of(event, each, *name)),
    }
}
