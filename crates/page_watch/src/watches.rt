// Several watches over one view.
ghost use Rattle.std.specs.Prelude.{◌≡◌, ◌+◌, ◌-◌, ◌<◌, ◌++◌, ◌∷◌, [], All, IfOk, IsFalse, OnOk, count_by, Some, length, map, slice_get, if◌then◌else◌};
ghost use Rattle.page_watch.specs.inside.Places.{CoversPlaces, places_of};
ghost use Rattle.page_watch.specs.Touch.{meets};
ghost use Rattle.page_watch.specs.Watched.{WatchStands};
ghost use Rattle.page_watch.specs.inside.Watching.{watch_after_event};
ghost use Rattle.expression_text.specs.Expression.{expression_of};
ghost use Rattle.watch_expr.specs.Parts.{places_of_parts};
ghost use Rattle.watch_expr.specs.Reads.{reads_of_expression};

use crate::places::AllPlaces;
use crate::view::TouchView;
use crate::watch::Watch;
use std::alloc::{AllocError, Global};
use std::marker::Model;
use std::sync::ledger::Ledger;
use watch_expr::{Expr, Steps};

/// Watches that are asked together. With them are kept all places that they were read from, so that an event that touched
/// none of these costs little, however many watches there are. Contracts see the list of them.
pub struct Watches {
    watches: Vec<Watch>,
    places: AllPlaces,
}

// By hand, so that it is proved here, and not in each crate that owns one.
impl Drop for Watches {
    fn drop(self) {
        let Self {
            watches: _watches,
            places: _places,
        } = self;
    }
}

impl Model for Watches {
    ghost use Rattle.std.specs.Prelude.{List};
    ghost use Rattle.std.specs.Coded.{codes};
    ghost use Rattle.page_watch.specs.Watched.{Watched};
    ghost use Rattle.expression_text.specs.Coding.{expression_code};

    ghost Value = { List Watched };

    ghost coded = { Prim.hlevel (codes, expression_code) };

    ghost use Rattle.page_watch.specs.inside.Places.{CoversPlaces, places_of};

    ghost view = { λ w. w.watches.items };

    ghost invariant = { λ w. CoversPlaces w.places (places_of w.watches.items) };
}

impl Watches {
    /// No watches. It takes no memory.
    pub fn new(alloc: Global) -> Watches
        ensures { result ≡ [] }
    {
        Watches {
            watches: Vec::new(alloc),
            places: AllPlaces::none(alloc),
        }
    }

    /// One watch more, of what the view shows, after one evaluation.
    pub fn with<V: TouchView, L: Ledger>(
        self,
        alloc: Global,
        expr: Expr,
        v: &V,
        steps: &mut Steps<L>,
    ) -> Result<Watches, AllocError>
        ensures expressions { IfOk result (λ done. map (λ w. w.expression) done ≡ map (λ w. w.expression) self ++ expression_of expr ∷ []) }
        ensures stand { IfOk result (λ done. All (λ w. WatchStands w (V.states v.now (V.at v.now))) self → All (λ w. WatchStands w (V.states v.now (V.at v.now))) done) }
        ensures steps { steps.new ≡ steps.old + 1 }
    {
        watch_expr::laws::parts_make_up();
        let Watches {
            mut watches,
            places,
        } = self;
        let (watch, places) = Watch::new(alloc, expr, v, places, steps)?;
        watches.push(watch)?;
        Ok(Watches { watches, places })
    }

    /// How many there are.
    pub fn len(&self) -> usize
        ensures { result ≡ length self.now }
    {
        self.watches.len()
    }

    /// The value of the watch at this place.
    pub fn value(&self, n: usize) -> Option<i64>
        requires { n < length self.now }
        ensures { slice_get (map (λ w. w.value) self.now) n ≡ Some result }
    {
        self.watches[n].value()
    }

    /// The watches after the event at the view's position. Each evaluates where that event touched something that it was read
    /// from, and nowhere else. False comes only where none did, and they are then as they were.
    pub fn after_event<V: TouchView, L: Ledger>(
        self,
        alloc: Global,
        v: &V,
        steps: &mut Steps<L>,
    ) -> Result<(Watches, bool), AllocError>
        requires position { 0 < V.at v.now }
        requires stand { All (λ w. WatchStands w (V.states v.now (V.at v.now - 1))) self }
        ensures expressions { IfOk result (λ done. map (λ w. w.expression) done.0 ≡ map (λ w. w.expression) self) }
        ensures stand { IfOk result (λ done. All (λ w. WatchStands w (V.states v.now (V.at v.now))) done.0) }
        ensures same { IfOk result (λ done. IsFalse done.1 → done.0 ≡ self) }
        ensures steps { OnOk result (steps.new ≡ steps.old + count_by (λ w. meets (V.marks v.now) (V.at v.now) (reads_of_expression (V.states v.now (V.at v.now - 1)) w.expression)) self) }
    {
        watch_expr::laws::parts_make_up();
        watch_expr::laws::reads_tell();
        let at = v.position();
        let Watches { watches, places } = self;
        if !places.is_touched(v, at) {
            return Ok((Watches { watches, places }, false));
        }
        let (watches, places) = ask_all(alloc, watches, places, v, steps)?;
        Ok((Watches { watches, places }, true))
    }
}

// Asks each watch. The places of what was read again are added to those of all.
fn ask_all<V: TouchView, L: Ledger>(
    alloc: Global,
    watches: Vec<Watch>,
    places: AllPlaces,
    v: &V,
    steps: &mut Steps<L>,
) -> Result<(Vec<Watch>, AllPlaces), AllocError>
    requires position { 0 < V.at v.now }
    requires stand { All (λ w. WatchStands w (V.states v.now (V.at v.now - 1))) watches.items }
    requires covers { CoversPlaces places (places_of watches.items) }
    ensures watches { IfOk result (λ done. done.0.items ≡ map (watch_after_event (V.marks v.now) (V.at v.now) (V.states v.now (V.at v.now))) watches.items) }
    ensures covers { IfOk result (λ done. CoversPlaces done.1 (places_of done.0.items)) }
    ensures steps { OnOk result (steps.new ≡ steps.old + count_by (λ w. meets (V.marks v.now) (V.at v.now) (places_of_parts w.parts)) watches.items) }
{
    let mut watches = watches;
    let mut places = places;
    for n in 0..watches.len() {
        places = watches[n].ask(alloc, v, places, steps)?;
    }
    Ok((watches, places))
}
