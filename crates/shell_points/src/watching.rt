// What points read on a walk, from position to position.
ghost use Rattle.std.specs.Prelude.{◌≡◌, ℕ, ℤ, ◌+◌, ◌-◌, ◌<◌, ◌≤◌, ◌^◌, ◌∷◌, ◌++◌, All, List, Option, IfOk, MatchOption, OnOk, count_by, drop, length, map};
ghost use Rattle.std.specs.List.{list_any};
ghost use Rattle.group_state.specs.Nodes.{nodes_at};
ghost use Rattle.group_state.specs.Touch.{is_met_by_event};
ghost use Rattle.page_watch.specs.Watched.{WatchStands, Watched};
ghost use Rattle.shell_points.specs.inside.Reading.{NoneFires, readings_before};
ghost use Rattle.shell_points.specs.inside.Meanings.{point as seen};
ghost use Rattle.shell_points.specs.Meanings.{trigger};
ghost use Rattle.shell_points.specs.inside.Watches.{IsWatching, dealt_values, is_break, values_by};
ghost use Rattle.shell_points.specs.Watching.{expressions_of, watched_expressions};
ghost use Rattle.shell_points.specs.declared.point.Point.{Point as Held};

use crate::point::{Point, Trigger};
use group_state::Group;
use page_watch::Watches;
use std::alloc::{AllocError, Global};
use std::marker::Brand;
use std::sync::ledger::{Blank, Ledger};
use watch_expr::Steps;

/// The watches of the points that are watchpoints, what each point reads, and whether one waits for calls.
#[derive(Drop)]
pub(crate) struct Watching {
    watches: Watches,
    pub(crate) values: Vec<Option<i64>>,
    has_breaks: bool,
}

impl Watching {
    /// What the points read where the group is.
    pub(crate) fn begin(
        alloc: Global,
        points: &[Point],
        group: &Group<'_, '_>,
    ) -> Result<Watching, AllocError>
        ensures { IfOk result (λ watching. IsWatching group.now.start group.now.at (map {A = Held} seen points.now) watching) }
    {
        let watches = watch_all::<Brand>(alloc, Blank::new(1), points, group)?;
        let values = values_by(alloc, points, &watches)?;
        Ok(Watching {
            watches,
            values,
            has_breaks: has_breaks(points),
        })
    }

    /// The same after the next event, where the group now is; and what they read before it, where some point may fire.
    pub(crate) fn after_event<L: Ledger>(
        self,
        alloc: Global,
        points: &[Point],
        group: &Group<'_, '_>,
        steps: &mut Steps<L>,
    ) -> Result<(Watching, Option<Vec<Option<i64>>>), AllocError>
        requires moved { 0 < group.now.at }
        requires before { IsWatching group.now.start (group.now.at - 1) (map {A = Held} seen points.now) self }
        ensures now { IfOk result (λ done. IsWatching group.now.start group.now.at (map {A = Held} seen points.now) done.0) }
        ensures before { IfOk result (λ done. MatchOption done.1 (NoneFires group.now (map {A = Held} seen points.now))
            (λ before. before.items ≡ readings_before group.now (map {A = Held} seen points.now))) }
        ensures ticks { OnOk result (steps.new ≡ steps.old + count_by (is_met_by_event group.now.start group.now.at) (watched_expressions (map {A = Held} seen points.now))) }
    {
        let Watching {
            watches,
            values: before,
            has_breaks,
        } = self;
        let (watches, is_read) = watches.after_event(alloc, group, steps)?;
        if !is_read && !has_breaks {
            let watching = Watching {
                watches,
                values: before,
                has_breaks,
            };
            return Ok((watching, None));
        }
        let values = values_by(alloc, points, &watches)?;
        let watching = Watching {
            watches,
            values,
            has_breaks,
        };
        Ok((watching, Some(before)))
    }
}

// A watch of each watchpoint, of what it reads where the group is. These evaluations have a counter of their own.
fn watch_all<L: Ledger>(
    alloc: Global,
    blank: Blank,
    points: &[Point],
    group: &Group<'_, '_>,
) -> Result<Watches, AllocError>
    requires name { blank.name ≡ L.name }
    requires parts { blank.parts ≡ L.parts }
    requires some { 0 < blank.parts }
    ensures expressions { IfOk result (λ watches. map (λ w. w.expression) watches ≡ watched_expressions (map {A = Held} seen points.now)) }
    ensures stand { IfOk result (All (λ w. WatchStands w (nodes_at group.now))) }
{
    let mut steps = Steps::<L>::new(blank);
    let mut watches = Watches::new(alloc);
    for point in points {
        watches = watch_point(alloc, watches, point, group, &mut steps)?;
    }
    Ok(watches)
}

// One watch more, if the point is a watchpoint.
fn watch_point<L: Ledger>(
    alloc: Global,
    watches: Watches,
    point: &Point,
    group: &Group<'_, '_>,
    steps: &mut Steps<L>,
) -> Result<Watches, AllocError>
    ensures expressions { IfOk result (λ done. map (λ w. w.expression) done ≡ map (λ w. w.expression) watches ++ expressions_of (seen point.now)) }
    ensures stand { IfOk result (λ done. All (λ w. WatchStands w (nodes_at group.now)) watches → All (λ w. WatchStands w (nodes_at group.now)) done) }
{
    match &point.trigger {
        Trigger::Watch(expression) => {
            let expression = expression.copy(alloc)?;
            watches.with(alloc, expression, group, steps)
        }
        Trigger::Break(_, _) => Ok(watches),
    }
}

// What each point reads, by the watches of those that are watchpoints.
fn values_by(
    alloc: Global,
    points: &[Point],
    watches: &Watches,
) -> Result<Vec<Option<i64>>, AllocError>
    requires { map (λ w. w.expression) watches.now ≡ watched_expressions (map {A = Held} seen points.now) }
    ensures { IfOk result (λ values. values.items ≡ values_by (map {A = Held} seen points.now) watches.now) }
{
    let _ = watches.len();
    let mut values = Vec::new(alloc);
    let mut n = 0;
    for point in points {
        let (value, next) = value_by(point, watches, n);
        values.push(value)?;
        n = next;
    }
    Ok(values)
}

// What a point reads, where the next watch is this one, and which watch is the next after it.
fn value_by(point: &Point, watches: &Watches, n: usize) -> (Option<i64>, usize)
    requires fits { length watches.now < 2 ^ 64 }
    requires room { n + length (expressions_of (seen point.now)) ≤ length watches.now }
    ensures next { result.1 ≡ n + length (expressions_of (seen point.now)) }
    ensures value { (rest : List Watched → List (Option ℤ)) → dealt_values (trigger point.now.trigger) rest (drop n watches.now) ≡ result.0 ∷ rest (drop result.1 watches.now) }
{
    match point.trigger {
        Trigger::Watch(_) => (watches.value(n), n + 1),
        Trigger::Break(_, _) => (None, n),
    }
}

// Whether one of the points waits for calls.
fn has_breaks(points: &[Point]) -> bool
    ensures { result ≡ list_any (λ p. is_break (seen p)) points.now }
{
    points.iter().any(|point| is_break(point))
}

fn is_break(point: &Point) -> bool
    ensures { result ≡ is_break (seen point.now) }
{
    match point.trigger {
        Trigger::Watch(_) => false,
        Trigger::Break(_, _) => true,
    }
}
