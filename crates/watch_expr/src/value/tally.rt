// What an aggregate has made of the values at the nodes so far.
ghost use Rattle.std.specs.Prelude.{◌≡◌};
ghost use Rattle.std.specs.Int.{int_max, int_min};
ghost use Rattle.watch_expr.specs.inside.ValueTally.{HasTallyRoomForValue, added_value, best_value, empty_tally, total};

use crate::value::operators::is_zero;
use expression_text::Agg;

// The sum is exact: 128 bits hold that of as many values as there can be nodes.
#[derive(Clone, Copy)]
pub(crate) enum Tally {
    Sum(i128),
    Min(Option<i64>),
    Max(Option<i64>),
    Count(u32),
}

impl Tally {
    pub(crate) fn start(agg: Agg) -> Tally
        ensures { result ≡ empty_tally agg }
    {
        match agg {
            Agg::Sum => Tally::Sum(0),
            Agg::Min => Tally::Min(None),
            Agg::Max => Tally::Max(None),
            Agg::Count => Tally::Count(0),
        }
    }

    // With one more value.
    pub(crate) fn add(self, value: i64) -> Tally
        requires { HasTallyRoomForValue self }
        ensures { result ≡ added_value self value }
    {
        match self {
            Tally::Sum(sum) => Tally::Sum(sum + i128::from(value)),
            Tally::Min(least) => Tally::Min(Some(smaller(least, value))),
            Tally::Max(greatest) => Tally::Max(Some(larger(greatest, value))),
            Tally::Count(count) => Tally::Count(counted(count, value)),
        }
    }

    pub(crate) fn total(self) -> Option<i64>
        ensures { result ≡ total self }
    {
        match self {
            Tally::Sum(sum) => i64::try_from(sum).ok(),
            Tally::Min(least) => least,
            Tally::Max(greatest) => greatest,
            Tally::Count(count) => Some(i64::from(count)),
        }
    }
}

fn smaller(least: Option<i64>, value: i64) -> i64
    ensures { result ≡ best_value int_min least value }
{
    match least {
        Some(least) if least <= value => least,
        _ => value,
    }
}

fn larger(greatest: Option<i64>, value: i64) -> i64
    ensures { result ≡ best_value int_max greatest value }
{
    match greatest {
        Some(greatest) if greatest > value => greatest,
        _ => value,
    }
}

fn counted(count: u32, value: i64) -> u32
    requires { HasTallyRoomForValue (Tally.Count count) }
    ensures { Tally.Count result ≡ added_value (Tally.Count count) value }
{
    if is_zero(value) { count } else { count + 1 }
}
