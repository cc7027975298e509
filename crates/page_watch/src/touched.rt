// Whether an event touched one of some places.
ghost use Rattle.std.specs.Prelude.{◌≡◌, ◌<◌, ◌&&◌, ◌==◌, true};
ghost use Rattle.std.specs.List.{list_all};
ghost use Rattle.page_watch.specs.inside.Watching.{IsOnlyNode};
ghost use Rattle.page_watch.specs.Touch.{MarksTell, meets, node_of};
ghost use Rattle.watch_expr.specs.Reads.{is_low_place};

use crate::view::TouchView;
use watch_expr::Place;

// Whether one of the places has the position's mark.
pub(crate) fn is_touched<V: TouchView>(v: &V, at: u64, places: &[Place]) -> bool
    requires is { at ≡ V.at v.now }
    requires some { 0 < V.at v.now }
    requires tells { MarksTell (V.states v.now) (V.at v.now) (V.marks v.now) }
    requires low { list_all is_low_place places.now ≡ true }
    ensures { result ≡ meets (V.marks v.now) (V.at v.now) places.now }
{
    match v.last_node() {
        Some(node) => is_met(v, at, node, places),
        None => false,
    }
}

// Whether one of the places has this mark, which only this node has. Most places are of other nodes, which are not asked.
pub(crate) fn is_met<V: TouchView>(v: &V, at: u64, node: u32, places: &[Place]) -> bool
    requires low { list_all is_low_place places.now ≡ true }
    requires only { IsOnlyNode (V.marks v.now) at node }
    ensures { result ≡ meets (V.marks v.now) at places.now }
{
    for place in places {
        if is_marked(v, at, node, *place) {
            return true;
        }
    }
    false
}

fn is_marked<V: TouchView>(v: &V, at: u64, node: u32, place: Place) -> bool
    requires { IsOnlyNode (V.marks v.now) at node }
    ensures { result ≡ (is_low_place place && (V.marks v.now place == at)) }
{
    node_of(place) == node && has_mark(v, at, place)
}

fn has_mark<V: TouchView>(v: &V, at: u64, place: Place) -> bool
    ensures { result ≡ (is_low_place place && (V.marks v.now place == at)) }
{
    match place {
        Place::Page { node, page } => v.stamp(node, page) == at,
        Place::Global { node, n } => match u32::try_from(n) {
            Ok(n) => v.global_stamp(node, n) == at,
            Err(_) => false,
        },
        Place::Motion { node } => v.moved(node) == at,
        Place::Size { node } => v.resized(node) == at,
    }
}

pub(crate) fn node_of(place: Place) -> u32
    ensures { result ≡ node_of place }
{
    match place {
        Place::Page { node, .. } => node,
        Place::Global { node, .. } => node,
        Place::Motion { node } => node,
        Place::Size { node } => node,
    }
}
