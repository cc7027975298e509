// What the operators make of numbers.
ghost use Rattle.std.specs.Prelude.{◌≡◌, pos};
ghost use Rattle.watch_expr.specs.Value.{decided_by_left, fit_value, is_zero, unary_value, truth_value, two};

use expression_text::{Binary, Unary};

pub(crate) fn number(n: u64) -> Option<i64>
    ensures { result ≡ fit_value (pos n) }
{
    i64::try_from(n).ok()
}

pub(crate) fn unary_value(op: Unary, a: i64) -> Option<i64>
    ensures { result ≡ unary_value op a }
{
    match op {
        Unary::Minus => a.checked_neg(),
        Unary::Not => Some(truth(is_zero(a))),
    }
}

// What the left side alone decides.
pub(crate) fn decided_by_left(op: Binary, a: i64) -> Option<i64>
    ensures { result ≡ decided_by_left op a }
{
    match op {
        Binary::And if is_zero(a) => Some(0),
        Binary::Or if !is_zero(a) => Some(1),
        _ => None,
    }
}

pub(crate) fn two(op: Binary, a: i64, b: i64) -> Option<i64>
    ensures { result ≡ two op a b }
{
    match op {
        Binary::Or | Binary::And => Some(truth(!is_zero(b))),
        Binary::Eq => Some(truth(a == b)),
        Binary::Ne => Some(truth(a != b)),
        Binary::Lt => Some(truth(a < b)),
        Binary::Le => Some(truth(a <= b)),
        Binary::Gt => Some(truth(a > b)),
        Binary::Ge => Some(truth(a >= b)),
        Binary::Add => a.checked_add(b),
        Binary::Sub => a.checked_sub(b),
        Binary::Mul => a.checked_mul(b),
        Binary::Div => a.checked_div(b),
        Binary::Rem => a.checked_rem(b),
    }
}

pub(crate) fn is_zero(a: i64) -> bool
    ensures { result ≡ is_zero a }
{
    a == 0
}

pub(crate) fn truth(b: bool) -> i64
    ensures { result ≡ truth_value b }
{
    if b { 1 } else { 0 }
}
