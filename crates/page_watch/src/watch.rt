// A watched expression.
ghost use Rattle.std.specs.Prelude.{◌≡◌, ◌+◌, ◌-◌, ◌<◌, ◌++◌, IfOk, OnOk, if◌then◌else◌};
ghost use Rattle.page_watch.specs.Firing.{is_same_value};
ghost use Rattle.page_watch.specs.Touch.{meets};
ghost use Rattle.page_watch.specs.Watched.{WatchStands};
ghost use Rattle.page_watch.specs.inside.Places.{CoversPlaces};
ghost use Rattle.page_watch.specs.inside.Watching.{watch_after_event};
ghost use Rattle.expression_text.specs.Expression.{expression_of};
ghost use Rattle.watch_expr.specs.Parts.{places_of_parts};

use crate::again::{places_with, read_touched};
use crate::places::AllPlaces;
use crate::view::TouchView;
use std::alloc::{AllocError, Global};
use std::marker::Model;
use std::sync::ledger::Ledger;
use watch_expr::{Expr, Reading, Steps, read_parts, value_of_parts};

// An expression with its value and the parts that this was made from.
#[derive(Drop)]
pub(crate) struct Watch {
    expr: Expr,
    value: Option<i64>,
    parts: Vec<Reading>,
}

impl Model for Watch {
    ghost use Rattle.std.specs.Coded.{codes};
    ghost use Rattle.page_watch.specs.Watched.{Watched};
    ghost use Rattle.expression_text.specs.Coding.{expression_code};

    ghost Value = { Watched };

    ghost coded = { Prim.hlevel (codes, expression_code) };

    ghost use Rattle.expression_text.specs.Expression.{expression_of};

    ghost view = { λ w. record { expression = expression_of w.expr; value = w.value; parts = w.parts.items } };
}

impl Watch {
    // A watch of what the view shows, after one evaluation. Its places are added to those of all.
    pub(crate) fn new<V: TouchView, L: Ledger>(
        alloc: Global,
        expr: Expr,
        v: &V,
        places: AllPlaces,
        steps: &mut Steps<L>,
    ) -> Result<(Watch, AllPlaces), AllocError>
        ensures expression { IfOk result (λ new. new.0.expression ≡ expression_of expr) }
        ensures stands { IfOk result (λ new. WatchStands new.0 (V.states v.now (V.at v.now))) }
        ensures all { IfOk result (λ new. CoversPlaces new.1 places) }
        ensures places { IfOk result (λ new. CoversPlaces new.1 (places_of_parts new.0.parts)) }
        ensures steps { steps.new ≡ steps.old + 1 }
    {
        watch_expr::laws::parts_make_up();
        let _ = v.position();
        steps.tick();
        let parts = read_parts(alloc, &expr, v)?;
        let value = value_of_parts(&expr, &parts);
        let places = places_with(alloc, places, &parts)?;
        Ok((Watch { expr, value, parts }, places))
    }

    // Evaluates again if the event at the view's position touched something that was read, and then reads only what it
    // touched. The places of that are added to those of all.
    pub(crate) fn ask<V: TouchView, L: Ledger>(
        &mut self,
        alloc: Global,
        v: &V,
        places: AllPlaces,
        steps: &mut Steps<L>,
    ) -> Result<AllPlaces, AllocError>
        requires position { 0 < V.at v.now }
        requires stands { WatchStands self.old (V.states v.now (V.at v.now - 1)) }
        ensures watch { OnOk result (self.new ≡ watch_after_event (V.marks v.now) (V.at v.now) (V.states v.now (V.at v.now)) self.old) }
        ensures all { IfOk result (λ all. CoversPlaces all places) }
        ensures places { IfOk result (λ all. CoversPlaces (all ++ places_of_parts self.old.parts) (places_of_parts self.new.parts)) }
        ensures steps { OnOk result (steps.new ≡ steps.old + (if meets (V.marks v.now) (V.at v.now) (places_of_parts self.old.parts) then 1 else 0)) }
    {
        watch_expr::laws::parts_make_up();
        watch_expr::laws::reads_tell();
        let _ = v.position();
        let (places, is_touched) = read_touched(alloc, &self.expr, v, &mut self.parts, places)?;
        if is_touched {
            steps.tick();
            self.value = value_of_parts(&self.expr, &self.parts);
        }
        Ok(places)
    }

    pub(crate) fn value(&self) -> Option<i64>
        ensures { result ≡ self.now.value }
    {
        self.value
    }
}

/// Whether two values of an expression are the same, where none is the same as none alone.
pub fn is_same_value(old: Option<i64>, new: Option<i64>) -> bool
    ensures { result ≡ is_same_value old new }
{
    match (old, new) {
        (None, None) => true,
        (Some(old), Some(new)) => old == new,
        _ => false,
    }
}
