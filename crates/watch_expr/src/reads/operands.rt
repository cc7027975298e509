// Operators and aggregates of operands that may be undef.
ghost use Rattle.std.specs.Prelude.{◌≡◌, option_and_then, IfSome};
ghost use Rattle.watch_expr.specs.Reads.{evaluates_right};
ghost use Rattle.watch_expr.specs.Value.{decided_by_left, loaded_at, unary_value, decided_with_right};
ghost use Rattle.watch_expr.specs.inside.ValueTally.{HasTallyRoomForValue, added_value_if, total};

use crate::value::loads::load;
use crate::value::operators::{decided_by_left, two, unary_value};
use crate::value::tally::Tally;
use crate::view::View;
use expression_text::{Binary, Unary, Width};

pub(crate) fn one_of(op: Unary, a: Option<i64>) -> Option<i64>
    ensures { result ≡ option_and_then (unary_value op) a }
{
    unary_value(op, a?)
}

// With this value of the left side the right one is evaluated.
pub(crate) fn evaluates_right(op: Binary, a: Option<i64>) -> bool
    ensures { result ≡ evaluates_right op a }
{
    match a {
        Some(a) => decided_by_left(op, a).is_none(),
        None => !matches!(op, Binary::And | Binary::Or),
    }
}

pub(crate) fn two_of(op: Binary, a: Option<i64>, b: Option<i64>) -> Option<i64>
    ensures { result ≡ option_and_then (λ a. decided_with_right op a (decided_by_left op a) b) a }
{
    let a = a?;
    match decided_by_left(op, a) {
        Some(result) => Some(result),
        None => two(op, a, b?),
    }
}

pub(crate) fn load_of<V: View>(
    v: &V,
    node: Option<u32>,
    width: Width,
    addr: Option<i64>,
) -> Option<i64>
    ensures { result ≡ option_and_then (λ addr. option_and_then (λ k. loaded_at (V.nodes v.now) k width addr) node) addr }
{
    load(v, node, width, addr?)
}

pub(crate) fn add_if(tally: Option<Tally>, a: Option<i64>) -> Option<Tally>
    requires { IfSome tally HasTallyRoomForValue }
    ensures { result ≡ added_value_if tally a }
{
    Some(tally?.add(a?))
}

pub(crate) fn total_of(tally: Option<Tally>) -> Option<i64>
    ensures { result ≡ option_and_then total tally }
{
    tally?.total()
}
