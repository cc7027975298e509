// The places of a node that one part of an expression reads.
ghost use Rattle.std.specs.Prelude.{◌≡◌, ◌+◌, ◌*◌, ◌<◌, ◌≤◌, ◌^◌, ◌++◌, ◌∷◌, [], Some, nat_lt, length, slice_get, if◌then◌else◌, OnOk};
ghost use Rattle.watch_expr.specs.Reads.{places_at_node, load_places, two_pages};
ghost use Rattle.watch_expr.specs.declared.reads.Place.TheVariants as place;

use crate::reads::Place;
use crate::value::places::within;
use crate::view::View;
use std::alloc::AllocError;

// What a load of so many bytes reads besides its address.
pub(crate) fn push_load<V: View>(
    v: &V,
    node: Option<u32>,
    count: u64,
    addr: Option<i64>,
    places: &mut Vec<Place>,
) -> Result<(), AllocError>
    requires some { 0 < count }
    requires few { count ≤ 8 }
    ensures { OnOk result (places.new.items ≡ places.old.items ++ places_at_node node (λ k. load_places k (slice_get (V.nodes v.now) k) count addr)) }
{
    match (within(v, node), addr) {
        (Some(node), Some(addr)) => push_bytes(v, node, count, addr, places),
        _ => Ok(()),
    }
}

// The pages of the bytes, or the size.
fn push_bytes<V: View>(
    v: &V,
    node: u32,
    count: u64,
    addr: i64,
    places: &mut Vec<Place>,
) -> Result<(), AllocError>
    requires there { node < length (V.nodes v.now) }
    requires some { 0 < count }
    requires few { count ≤ 8 }
    ensures { OnOk result (places.new.items ≡ places.old.items ++ load_places node (slice_get (V.nodes v.now) node) count (Some addr)) }
{
    let size = u64::from(v.pages(node)) * 65536;
    match u64::try_from(addr) {
        Ok(addr) if addr + count <= size => {
            push_pages(
                node,
                (addr / 4096) as u32,
                ((addr + count - 1) / 4096) as u32,
                places,
            )
        }
        _ => push(Place::Size { node }, places),
    }
}

fn push_pages(node: u32, first: u32, last: u32, places: &mut Vec<Place>) -> Result<(), AllocError>
    ensures { OnOk result (places.new.items ≡ places.old.items ++ two_pages node first last) }
{
    push(Place::Page { node, page: first }, places)?;
    if first == last {
        return Ok(());
    }
    push(Place::Page { node, page: last }, places)
}

pub(crate) fn push_global(
    node: Option<u32>,
    n: u64,
    places: &mut Vec<Place>,
) -> Result<(), AllocError>
    ensures { OnOk result (places.new.items ≡ places.old.items ++ places_at_node node (λ k. if nat_lt n (2 ^ 32) then place.Global k n ∷ [] else [])) }
{
    match node {
        Some(node) if n < 1 << 32 => push(Place::Global { node, n }, places),
        _ => Ok(()),
    }
}

pub(crate) fn push_motion(node: Option<u32>, places: &mut Vec<Place>) -> Result<(), AllocError>
    ensures { OnOk result (places.new.items ≡ places.old.items ++ places_at_node node (λ k. place.Motion k ∷ [])) }
{
    match node {
        Some(node) => push(Place::Motion { node }, places),
        None => Ok(()),
    }
}

pub(crate) fn push_size(node: Option<u32>, places: &mut Vec<Place>) -> Result<(), AllocError>
    ensures { OnOk result (places.new.items ≡ places.old.items ++ places_at_node node (λ k. place.Size k ∷ [])) }
{
    match node {
        Some(node) => push(Place::Size { node }, places),
        None => Ok(()),
    }
}

fn push(place: Place, places: &mut Vec<Place>) -> Result<(), AllocError>
    ensures { OnOk result (places.new.items ≡ places.old.items ++ place ∷ []) }
{
    places.push(place)?;
    Ok(())
}
