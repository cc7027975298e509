// What the places of a node hold.
ghost use Rattle.std.specs.Prelude.{◌≡◌, ◌<◌, None, Some, pos, length, option_and_then, option_map, slice_get, IfNone, IfSome};
ghost use Rattle.watch_expr.specs.Value.{global_value, resolved_node, truth_value};
ghost use Rattle.watch_expr.specs.View.{node_clock, events_at, has_ended_at, last_thread_at, size_at};

use crate::value::operators::truth;
use crate::view::View;
use expression_text::NodeName;

// The node with this name, where `event` is the node of the position's event, and `each` that of the aggregate around it.
pub(crate) fn node_of(event: Option<u32>, each: Option<u32>, name: NodeName) -> Option<u32>
    ensures { result ≡ resolved_node event each name }
{
    match name {
        NodeName::Named(node) => node,
        NodeName::Each => each,
        NodeName::OfEvent => event,
    }
}

// The node, where the view has it.
pub(crate) fn within<V: View>(v: &V, node: Option<u32>) -> Option<u32>
    ensures some { IfSome result (λ k. (node ≡ Some k) × (k < length (V.nodes v.now))) }
    ensures none { IfNone result (option_and_then (slice_get (V.nodes v.now)) node ≡ None) }
{
    match node {
        Some(k) if k < v.node_count() => Some(k),
        _ => None,
    }
}

pub(crate) fn clock<V: View>(v: &V, node: Option<u32>) -> Option<i64>
    ensures { result ≡ option_and_then (node_clock (V.nodes v.now)) node }
{
    let node = within(v, node)?;
    Some(v.clock(node))
}

pub(crate) fn events<V: View>(v: &V, node: Option<u32>) -> Option<i64>
    ensures { result ≡ option_and_then (events_at (V.nodes v.now)) node }
{
    let node = within(v, node)?;
    Some(v.events(node))
}

pub(crate) fn last_thread<V: View>(v: &V, node: Option<u32>) -> Option<i64>
    ensures { result ≡ option_and_then (last_thread_at (V.nodes v.now)) node }
{
    let node = within(v, node)?;
    v.last_thread(node)
}

pub(crate) fn has_ended<V: View>(v: &V, node: Option<u32>) -> Option<i64>
    ensures { result ≡ option_and_then (λ k. option_map truth_value (has_ended_at (V.nodes v.now) k)) node }
{
    let node = within(v, node)?;
    Some(truth(v.has_ended(node)))
}

pub(crate) fn size<V: View>(v: &V, node: Option<u32>) -> Option<i64>
    ensures { result ≡ option_and_then (λ k. option_map pos (size_at (V.nodes v.now) k)) node }
{
    let node = within(v, node)?;
    Some(i64::from(v.pages(node)))
}

pub(crate) fn global<V: View>(v: &V, node: Option<u32>, n: u64) -> Option<i64>
    ensures { result ≡ option_and_then (λ k. global_value (V.nodes v.now) k n) node }
{
    let node = within(v, node)?;
    let n = u32::try_from(n).ok()?;
    v.global(node, n)
}
