// Parts of an expression that are read again.
ghost use Rattle.std.specs.Prelude.{◌≡◌, ◌-◌, ◌<◌, ◌++◌, ◌^◌, IfOk, OnOk, length};
ghost use Rattle.page_watch.specs.inside.Places.{CoversPlaces};
ghost use Rattle.page_watch.specs.Touch.{meets};
ghost use Rattle.expression_text.specs.Expression.{expression_of};
ghost use Rattle.watch_expr.specs.Parts.{nth_part, parts_of, places_of_parts};
ghost use Rattle.watch_expr.specs.Reads.{AreMemories};

use crate::places::AllPlaces;
use crate::touched::is_touched;
use crate::view::TouchView;
use std::alloc::{AllocError, Global};
use watch_expr::{Expr, Reading, part_count, read_part};

// The places with those of the parts.
pub(crate) fn places_with(
    alloc: Global,
    places: AllPlaces,
    parts: &[Reading],
) -> Result<AllPlaces, AllocError>
    ensures all { IfOk result (λ all. CoversPlaces all places) }
    ensures places { IfOk result (λ all. CoversPlaces all (places_of_parts parts.now)) }
{
    let mut all = places;
    for part in parts {
        all = all.with(alloc, part.places())?;
    }
    Ok(all)
}

// Reads again each part of which the event at the view's position touched something that it was read from, and says whether
// there is one. The places of these parts are added to those of all.
pub(crate) fn read_touched<V: TouchView>(
    alloc: Global,
    expr: &Expr,
    v: &V,
    parts: &mut Vec<Reading>,
    places: AllPlaces,
) -> Result<(AllPlaces, bool), AllocError>
    requires position { 0 < V.at v.now }
    requires before { parts.old.items ≡ parts_of (V.states v.now (V.at v.now - 1)) (expression_of expr.now) }
    requires sound { AreMemories (V.states v.now (V.at v.now - 1)) }
    ensures few { OnOk result (length parts.new.items < 2 ^ 32) }
    ensures parts { OnOk result (parts.new.items ≡ parts_of (V.states v.now (V.at v.now)) (expression_of expr.now)) }
    ensures touched { IfOk result (λ read. read.1 ≡ meets (V.marks v.now) (V.at v.now) (places_of_parts parts.old.items)) }
    ensures all { IfOk result (λ read. CoversPlaces read.0 places) }
    ensures places { IfOk result (λ read. CoversPlaces (read.0 ++ places_of_parts parts.old.items) (places_of_parts parts.new.items)) }
{
    let _ = v.position();
    let mut all = places;
    let mut touched = false;
    for n in 0..part_count(expr, v) {
        let (more, is_touched) = read_if_touched(alloc, expr, v, n, &mut parts[n as usize], all)?;
        all = more;
        touched |= is_touched;
    }
    Ok((all, touched))
}

// The same of the part of this number.
fn read_if_touched<V: TouchView>(
    alloc: Global,
    expr: &Expr,
    v: &V,
    n: u32,
    part: &mut Reading,
    places: AllPlaces,
) -> Result<(AllPlaces, bool), AllocError>
    requires position { 0 < V.at v.now }
    requires before { part.old ≡ nth_part (V.states v.now (V.at v.now - 1)) (expression_of expr.now) n }
    requires sound { AreMemories (V.states v.now (V.at v.now - 1)) }
    ensures part { OnOk result (part.new ≡ nth_part (V.states v.now (V.at v.now)) (expression_of expr.now) n) }
    ensures touched { IfOk result (λ read. read.1 ≡ meets (V.marks v.now) (V.at v.now) part.old.places) }
    ensures all { IfOk result (λ read. CoversPlaces read.0 places) }
    ensures places { IfOk result (λ read. CoversPlaces (read.0 ++ part.old.places) part.new.places) }
{
    watch_expr::laws::reads_tell();
    let at = v.position();
    if !is_touched(v, at, part.places()) {
        return Ok((places, false));
    }
    *part = read_part(alloc, expr, v, n)?;
    let all = places.with(alloc, part.places())?;
    Ok((all, true))
}
