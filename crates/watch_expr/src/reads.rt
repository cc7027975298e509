// The value of an expression together with what it is read from.
ghost use Rattle.std.specs.Prelude.{◌≡◌, ◌++◌, IfOk, OnOk, option_and_then};
ghost use Rattle.expression_text.specs.Expression.{expression_of};
ghost use Rattle.watch_expr.specs.Reads.{no_variables, reads_at};
ghost use Rattle.watch_expr.specs.Value.{expression_setting, value_at};

mod leaves;
mod operands;

use crate::reads::leaves::{push_global, push_load, push_motion, push_size};
use crate::reads::operands::{add_if, evaluates_right, load_of, one_of, total_of, two_of};
use crate::value::loads::byte_count;
use crate::value::operators::number;
use crate::value::places::{clock, events, global, has_ended, last_thread, node_of, size};
use crate::value::tally::Tally;
use crate::view::View;
use expression_text::Expr;
use std::alloc::AllocError;

/// What an expression can read of a node: a watch page of 4,096 bytes of its memory, a global, what each of its events
/// changes (its clock, the count of its events, the thread of the last and whether it has ended), or the size of its memory.
#[derive(Clone, Copy, PartialEq, Eq)]
pub enum Place {
    Page { node: u32, page: u32 },
    Global { node: u32, n: u64 },
    Motion { node: u32 },
    Size { node: u32 },
}

// The value where `each` is the node of the aggregate around the expression. What it reads is added to the places.
pub(crate) fn read<V: View>(
    e: &Expr,
    v: &V,
    each: Option<u32>,
    places: &mut Vec<Place>,
) -> Result<Option<i64>, AllocError>
    ensures value { IfOk result (λ a. a ≡ value_at (expression_setting (V.nodes v.now) no_variables) each (expression_of e.now)) }
    ensures places { OnOk result (places.new.items ≡ places.old.items ++ reads_at (expression_setting (V.nodes v.now) no_variables) each (expression_of e.now)) }
{
    match e {
        Expr::Number(n) => Ok(number(*n)),
        Expr::Var(_) => Ok(None),
        Expr::One(op, x) => {
            let a = read(x, v, each, places)?;
            Ok(one_of(*op, a))
        }
        Expr::Two(op, x, y) => {
            let a = read(x, v, each, places)?;
            if !evaluates_right(*op, a) {
                return Ok(two_of(*op, a, None));
            }
            let b = read(y, v, each, places)?;
            Ok(two_of(*op, a, b))
        }
        Expr::Over(agg, x) => {
            let mut tally = Some(Tally::start(*agg));
            for node in 0..v.node_count() {
                let a = read(x, v, Some(node), places)?;
                tally = add_if(tally, a);
            }
            Ok(total_of(tally))
        }
        Expr::Load(name, width, x) => {
            let addr = read(x, v, each, places)?;
            let node = node_of(None, each, *name);
            push_load(v, node, byte_count(*width), addr, places)?;
            Ok(load_of(v, node, *width, addr))
        }
        Expr::Global(name, n) => {
            let node = node_of(None, each, *name);
            push_global(node, *n, places)?;
            Ok(global(v, node, *n))
        }
        Expr::Clock(name) => {
            let node = node_of(None, each, *name);
            push_motion(node, places)?;
            Ok(clock(v, node))
        }
        Expr::Events(name) => {
            let node = node_of(None, each, *name);
            push_motion(node, places)?;
            Ok(events(v, node))
        }
        Expr::Size(name) => {
            let node = node_of(None, each, *name);
            push_size(node, places)?;
            Ok(size(v, node))
        }
        Expr::LastThread(name) => {
            let node = node_of(None, each, *name);
            push_motion(node, places)?;
            Ok(last_thread(v, node))
        }
        Expr::HasEnded(name) => {
            let node = node_of(None, each, *name);
            push_motion(node, places)?;
            Ok(has_ended(v, node))
        }
    }
}
