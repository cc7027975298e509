// The places that several watches were read from, by node.
ghost use Rattle.std.specs.Prelude.{◌≡◌, ◌<◌, ◌∷◌, [], IfOk, IfSome, IsTrue, OnOk, Some, length, option_map, slice_get, true};
ghost use Rattle.std.specs.List.{list_all};
ghost use Rattle.page_watch.specs.inside.Places.{AddsPlace, AreUnion, CoversPlaces, is_in_order, places_in};
ghost use Rattle.page_watch.specs.inside.Watching.{IsOnlyNode};
ghost use Rattle.page_watch.specs.Touch.{MarksTell, meets};
ghost use Rattle.watch_expr.specs.Reads.{is_low_place};

use crate::touched::{is_met, node_of};
use crate::view::TouchView;
use std::alloc::{AllocError, Global};
use std::marker::Model;
use watch_expr::Place;

// Places of one node, each of them once.
#[derive(Drop)]
pub(crate) struct NodePlaces {
    node: u32,
    places: Vec<Place>,
}

/// Places, by node, so that only those of the node that had an event are looked at.
#[derive(Drop)]
pub(crate) struct AllPlaces {
    nodes: Vec<NodePlaces>,
}

impl Model for AllPlaces {
    ghost use Rattle.std.specs.Prelude.{List};
    ghost use Rattle.watch_expr.specs.declared.reads.Place.{Place};

    ghost Value = { List Place };

    ghost use Rattle.std.specs.Prelude.{◌≡◌, true};
    ghost use Rattle.std.specs.List.{list_all};
    ghost use Rattle.page_watch.specs.inside.Places.{is_in_order, places_in};

    ghost view = { λ all. places_in all.nodes.items };

    ghost invariant = { λ all. list_all is_in_order all.nodes.items ≡ true };
}

impl AllPlaces {
    /// No places. It takes no memory.
    pub(crate) fn none(alloc: Global) -> AllPlaces
        ensures { result ≡ [] }
    {
        AllPlaces {
            nodes: Vec::new(alloc),
        }
    }

    /// These places more.
    pub(crate) fn with(self, alloc: Global, places: &[Place]) -> Result<AllPlaces, AllocError>
        requires { list_all is_low_place places.now ≡ true }
        ensures { IfOk result (λ all. AreUnion all self places.now) }
    {
        let mut nodes = self.nodes;
        for place in places {
            add(alloc, &mut nodes, *place)?;
        }
        Ok(AllPlaces { nodes })
    }

    /// Whether one of the places has the position's mark.
    pub(crate) fn is_touched<V: TouchView>(&self, v: &V, at: u64) -> bool
        requires is { at ≡ V.at v.now }
        requires some { 0 < V.at v.now }
        requires tells { MarksTell (V.states v.now) (V.at v.now) (V.marks v.now) }
        ensures { result ≡ meets (V.marks v.now) (V.at v.now) self.now }
    {
        match v.last_node() {
            Some(node) => is_met_at(v, at, node, &self.nodes),
            None => false,
        }
    }
}

// One place more.
fn add(alloc: Global, nodes: &mut Vec<NodePlaces>, place: Place) -> Result<(), AllocError>
    requires low { is_low_place place ≡ true }
    requires order { list_all is_in_order nodes.old.items ≡ true }
    ensures order { OnOk result (list_all is_in_order nodes.new.items ≡ true) }
    ensures union { OnOk result (AreUnion (places_in nodes.new.items) (places_in nodes.old.items) (place ∷ [])) }
{
    let node = node_of(place);
    match index_of(nodes, node) {
        Some(n) => add_to(&mut nodes[n].places, place),
        None => {
            let mut places = Vec::new(alloc);
            places.push(place)?;
            nodes.push(NodePlaces { node, places })?;
            Ok(())
        }
    }
}

// Where the places of a node stand.
fn index_of(nodes: &[NodePlaces], node: u32) -> Option<usize>
    ensures within { IfSome result (λ n. n < length nodes.now) }
    ensures node { IfSome result (λ n. option_map (λ p. p.node) (slice_get nodes.now n) ≡ Some node) }
{
    for (n, of_node) in nodes.iter().enumerate() {
        if of_node.node == node {
            return Some(n);
        }
    }
    None
}

// One place more, unless it is there.
fn add_to(places: &mut Vec<Place>, place: Place) -> Result<(), AllocError>
    ensures { OnOk result (AddsPlace places.old.items places.new.items place) }
{
    if !holds(places, place) {
        places.push(place)?;
    }
    Ok(())
}

fn holds(places: &[Place], place: Place) -> bool
    ensures { IsTrue result → CoversPlaces places.now (place ∷ []) }
{
    for other in places {
        if *other == place {
            return true;
        }
    }
    false
}

// Whether one of the places has this mark, which only this node has.
fn is_met_at<V: TouchView>(v: &V, at: u64, node: u32, nodes: &[NodePlaces]) -> bool
    requires order { list_all is_in_order nodes.now ≡ true }
    requires only { IsOnlyNode (V.marks v.now) at node }
    ensures { result ≡ meets (V.marks v.now) at (places_in nodes.now) }
{
    for of_node in nodes {
        if is_met_in(v, at, node, of_node) {
            return true;
        }
    }
    false
}

fn is_met_in<V: TouchView>(v: &V, at: u64, node: u32, of_node: &NodePlaces) -> bool
    requires order { is_in_order of_node.now ≡ true }
    requires only { IsOnlyNode (V.marks v.now) at node }
    ensures { result ≡ meets (V.marks v.now) at of_node.now.places.items }
{
    of_node.node == node && is_met(v, at, node, &of_node.places)
}
