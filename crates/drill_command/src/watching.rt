// The walk over all positions, with a watchpoint.
ghost use Rattle.std.specs.Prelude.{◌≡◌, IfOk};
ghost use Rattle.expression_text.specs.Expression.{expression_of};
ghost use Rattle.drill_command.specs.Drill.{drill_watch};
ghost use Rattle.drill_command.specs.inside.Results.{IsWatchedDrill};

use group_state::Group;
use page_watch::is_same_value;
use std::alloc::{AllocError, Global};
use watch_expr::{Agg, Expr, NoVariables, NodeName, Width, eval};

/// How many events were walked, at how many positions the value became another, and the last value.
#[derive(Drop)]
pub(crate) struct Watched {
    pub(crate) events: u64,
    pub(crate) firings: u64,
    pub(crate) last: Option<i64>,
}

// sum(@_.i64[1024])
fn watchpoint(alloc: Global) -> Result<Expr, AllocError>
    ensures { IfOk result (λ e. expression_of e ≡ drill_watch) }
{
    let address = Box::new(alloc, Expr::Number(1024))?;
    let count = Box::new(alloc, Expr::Load(NodeName::Each, Width::I64, address))?;
    Ok(Expr::Over(Agg::Sum, count))
}

/// Walks from position 0 to the last.
pub(crate) fn watch(alloc: Global, group: Group<'_, '_>) -> Result<Watched, AllocError>
    requires { group.at ≡ 0 }
    ensures { IfOk result (IsWatchedDrill group.entry.start) }
{
    let watchpoint = watchpoint(alloc)?;
    let mut here = group;
    let mut last = eval(&watchpoint, &here, &NoVariables);
    let mut firings = 0;
    'positions: loop {
        let event = here.forward()?;
        let events = here.position();
        if event.is_none() {
            return Ok(Watched {
                events,
                firings,
                last,
            });
        }
        let now = eval(&watchpoint, &here, &NoVariables);
        if !is_same_value(last, now) {
            firings += 1;
        }
        last = now;
    }
}
